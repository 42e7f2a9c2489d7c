//! What is done in a folder from outside.
use crate::plan::number_of;
use esr_scenes::{cut, say, unquoted};
use std::alloc::Global;
use std::os::unix::fs::symlink;
use std::{fs, io};

/// Writes a file, and makes the folders on the way to it.
pub(crate) fn write_file(rt: &HostRuntime, path: &str, text: &str) -> io::Result<()> {
    if let Some((folder, _)) = path.rsplit_once('/') {
        fs::create_dir_all(rt, folder)?;
    }
    fs::write(rt, path, text)
}

/// Writes so many empty files into a folder, with the names 1000, 1001 and so on.
fn fill(rt: &HostRuntime, folder: &str, count: &str) -> io::Result<()> {
    for number in 0..number_of(count).unwrap_or(0) {
        let number = number.saturating_add(1000);
        let path = format!(in rt.alloc(); "{folder}/{number}")?;
        write_file(rt, path.as_str(), "")?;
    }
    Ok(())
}

/// What is said of a change.
type Said = io::Result<&'static str>;

fn say_exists(rt: &HostRuntime, path: &str) -> Said {
    let exists = fs::exists(rt, path)?;
    Ok(if exists { "yes" } else { "no" })
}

/// Adds the text of a file.
fn say_text(rt: &HostRuntime, path: &str, line: &mut String) -> Said {
    let text = fs::read_to_string(rt, path)?;
    say(line, text.as_str());
    Ok("")
}

fn done(change: io::Result<()>) -> Said {
    change?;
    Ok("done")
}

fn change(rt: &HostRuntime, verb: &str, path: &str, text: &str, line: &mut String) -> Said {
    match verb {
        "exists" => say_exists(rt, path),
        "text" => say_text(rt, path, line),
        "write" => done(write_file(rt, path, text)),
        "fill" => done(fill(rt, path, text)),
        "link" => done(symlink(rt, text, path)),
        "remove" => done(fs::remove_file(rt, path)),
        "remove-folder" => done(fs::remove_dir(rt, path)),
        _ => Ok("no such change"),
    }
}

/// Does in a folder what a call says, and adds what comes of it:
///
/// | Call | What it does | Answers |
/// |---|---|---|
/// | `exists PATH` | | `yes` or `no` |
/// | `text PATH` | | the text of the file |
/// | `write PATH TEXT` | writes a file, and makes the folders on the way | `done` |
/// | `fill PATH COUNT` | writes so many empty files into a folder, from `PATH/1000` on | `done` |
/// | `link PATH TEXT` | makes a symbolic link with this text | `done` |
/// | `remove PATH`, `remove-folder PATH` | of a file; of an empty folder | `done` |
///
/// Each answers `failed` where the file system does. A path begins in the folder.
pub(crate) fn say_change(
    rt: &HostRuntime,
    alloc: Global,
    folder: &str,
    call: &str,
    line: &mut String,
) {
    let (verb, rest) = cut(call);
    let (name, text) = cut(rest);
    let Ok(path) = format!(in alloc; "{folder}/{name}") else {
        return say(line, "no memory");
    };
    let word = change(rt, verb, path.as_str(), unquoted(text), line).unwrap_or("failed");
    say(line, word);
}
