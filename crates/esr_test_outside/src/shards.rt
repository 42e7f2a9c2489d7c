//! What shards list and read, as lines of text.
ghost use Rattle.std.specs.Prelude.{◌≡◌, length, IfSome, IsSomeAnd};

use esr_scenes::{cut, say, say_bytes, say_faults, say_length, say_success};
use esr_source::Shard;
use std::alloc::Global;

/// Says what a shard lists, or that this fails. Answers how many files there are.
fn say_list<S: Shard>(alloc: Global, shard: &mut S, line: &mut String) -> Option<usize>
    ensures { IfSome result (λ n. IsSomeAnd (S.told shard.new).listed (λ fs. length fs ≡ n)) }
{
    let Ok(files) = shard.list(alloc) else {
        say(line, "failed ");
        return None;
    };
    for file in files.as_slice() {
        say_length(line, file.name.as_str(), file.length);
    }
    Some(files.len())
}

/// Says what four reads of two bytes give.
fn say_reads<S: Shard>(shard: &mut S, line: &mut String) {
    let mut buf = [0u8; 2];
    for _ in 0..4 {
        match shard.read(&mut buf) {
            Ok(count) => {
                say(line, "[");
                say_bytes(line, &buf[..count]);
                say(line, "] ");
            }
            Err(_) => say(line, "failed "),
        }
    }
}

/// Says what a shard lists, once more if that fails, and what reads of the file at that place give.
fn say_file<S: Shard>(alloc: Global, shard: &mut S, file: usize, line: &mut String) {
    let mut count = say_list(alloc, shard, line);
    if count.is_none() {
        count = say_list(alloc, shard, line);
    }
    if let Some(count) = count
        && file < count
    {
        say_success(line, shard.start(alloc, file).is_ok());
        say_reads(shard, line);
    }
}

/// Makes a call of a shard, and says what it answers, and how often the shard has failed by then:
///
/// | Call | What it does | Answers |
/// |---|---|---|
/// | `list` | | names with lengths |
/// | `read PLACE` | lists, once more if that fails, starts the file at that place of the list, and reads two bytes four times | the list, and each read |
fn say_shard<S: Shard>(alloc: Global, shard: &mut S, call: &str, line: &mut String) {
    match cut(call) {
        ("read", place) => say_file(alloc, shard, place.parse::<usize>().unwrap_or(0), line),
        _ => {
            say_list(alloc, shard, line);
        }
    }
    say_faults(line, shard.fault_count());
}

/// Makes a call of a shard, if there is one.
pub(crate) fn say_open_shard<S: Shard>(
    alloc: Global,
    shard: &mut Option<S>,
    call: &str,
    line: &mut String,
) {
    match shard {
        Some(shard) => say_shard(alloc, shard, call, line),
        None => say(line, "no shard"),
    }
}
