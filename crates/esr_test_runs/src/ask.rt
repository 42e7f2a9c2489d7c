//! What a container holds, and changes of it from outside.
use crate::errors::{Done, Trouble};
use crate::ground::{Ground, REPO, say_text, write_text};
use esr_depot::{Depot, Fetch, Stage};
use esr_dirdepot::DirDepot;
use esr_scenes::{one, say, say_bytes, say_number};
use esr_seq::{Bytes, Text};
use std::alloc::Global;

/// Says bytes as a text, or as numbers.
fn say_told(said: &mut String, bytes: &[u8], as_numbers: bool) {
    if as_numbers {
        let _ = write!(said, "{bytes:?}");
    } else {
        say_bytes(said, bytes);
    }
}

/// The bytes of a blob, or the first 4096 of more.
fn front_of<F: Fetch>(alloc: Global, mut fetch: F) -> Result<Option<Bytes>, Trouble> {
    let mut buf = [0; 4096];
    let count = fetch.read(&mut buf)?;
    Ok(Some(Bytes::from_slice(alloc, &buf[..count])?))
}

/// The bytes of the blob of that name, or the first 4096 of more.
fn blob_of<D: Depot>(alloc: Global, depot: &mut D, name: &str) -> Result<Option<Bytes>, Trouble> {
    match depot.fetch(alloc, name)? {
        Some(fetch) => front_of(alloc, fetch),
        None => Ok(None),
    }
}

fn say_record<D: Depot>(alloc: Global, depot: &mut D, said: &mut String) -> Done {
    match depot.read_record(alloc)? {
        Some(bytes) => say_bytes(said, bytes.as_slice()),
        None => say(said, "none"),
    }
    Ok(())
}

fn say_blob<D: Depot>(
    alloc: Global,
    depot: &mut D,
    name: &str,
    as_numbers: bool,
    said: &mut String,
) -> Done {
    match blob_of(alloc, depot, name)? {
        Some(bytes) => say_told(said, bytes.as_slice(), as_numbers),
        None => say(said, "none"),
    }
    Ok(())
}

fn say_there<D: Depot>(alloc: Global, depot: &mut D, name: &str, said: &mut String) -> Done {
    let is_there = depot.fetch(alloc, name)?.is_some();
    say(said, if is_there { "true" } else { "false" });
    Ok(())
}

fn say_count<D: Depot>(alloc: Global, depot: &mut D, said: &mut String) -> Done {
    let count = depot.list(alloc, None)?.page.len();
    say_number(said, count as u64);
    Ok(())
}

/// Says what a container answers to a question.
fn say_of<D: Depot>(
    alloc: Global,
    depot: &mut D,
    what: &str,
    name: &str,
    said: &mut String,
) -> Done {
    match what {
        "record" => say_record(alloc, depot, said),
        "blob" => say_blob(alloc, depot, name, false, said),
        "bytes" => say_blob(alloc, depot, name, true, said),
        "there" => say_there(alloc, depot, name, said),
        "blobs" => say_count(alloc, depot, said),
        _ => Err(Trouble("there is no such question")),
    }
}

/// Says what the container there answers to a question.
pub fn say_answer(
    alloc: Global,
    ground: &mut Ground,
    what: &str,
    name: &str,
    said: &mut String,
) -> Done {
    match ground {
        Ground::Memory { depot } => say_of(alloc, depot, what, name, said),
        Ground::Own { store } => say_of(alloc, store, what, name, said),
        Ground::Folders { rt, .. } => {
            let mut depot = DirDepot::new(*rt, alloc, REPO)?;
            let done = say_of(alloc, &mut depot, what, name, said);
            drop(depot);
            done
        }
    }
}

/// Puts a blob of these bytes.
fn put<D: Depot>(alloc: Global, depot: &mut D, name: &str, bytes: &[u8]) -> Done {
    let mut stage = depot.begin(alloc, name, bytes.len())?;
    stage.write(bytes)?;
    Ok(depot.replace(alloc, stage)?)
}

/// Takes a blob away.
fn remove<D: Depot>(alloc: Global, depot: &mut D, name: &str) -> Done {
    let names = one(alloc, Text::from_str(alloc, name)?)?;
    Ok(depot.remove(&names)?)
}

/// Takes the last byte of a blob away.
fn shorten<D: Depot>(alloc: Global, depot: &mut D, name: &str) -> Done {
    let bytes = blob_of(alloc, depot, name)?.unwrap_or(Bytes::new(alloc));
    let [front @ .., _] = bytes.as_slice() else {
        return Err(Trouble("there is no last byte"));
    };
    put(alloc, depot, name, front)
}

/// Changes a container: what is done, and the blob's name or the record, with the text where a blob is put.
fn change<D: Depot>(alloc: Global, depot: &mut D, what: &str, value: &str) -> Done {
    let (name, text) = value.split_once('=').unwrap_or((value, ""));
    match what {
        "put" => put(alloc, depot, name, text.as_bytes()),
        "remove" => remove(alloc, depot, name),
        "shorten" => shorten(alloc, depot, name),
        _ => Ok(depot.swap_record(alloc, value.as_bytes())?),
    }
}

/// Changes the container there.
pub fn change_there(alloc: Global, ground: &mut Ground, what: &str, value: &str) -> Done {
    match ground {
        Ground::Memory { depot } => change(alloc, depot, what, value),
        Ground::Own { store } => change(alloc, store, what, value),
        Ground::Folders { rt, .. } => {
            let mut depot = DirDepot::new(*rt, alloc, REPO)?;
            let done = change(alloc, &mut depot, what, value);
            drop(depot);
            done
        }
    }
}

/// The folders in which a scene is played.
fn folders_of<'a>(ground: &Ground<'a>) -> Result<&'a HostRuntime, Trouble> {
    match ground {
        Ground::Folders { rt, .. } => Ok(*rt),
        _ => Err(Trouble("there are no files in memory")),
    }
}

/// Says the text of a file of the container's folder.
pub fn say_file(ground: &Ground, path: &str, said: &mut String) -> Done {
    say_text(folders_of(ground)?, said, REPO, path)
}

/// Writes a file of the container's folder.
pub fn write_file(ground: &Ground, file: &str) -> Done {
    write_text(folders_of(ground)?, REPO, file)
}
