//! What goes wrong in the next run, by the lines of a scene and by the rounds of a loop.
use crate::errors::{Done, Trouble};
use crate::setting::Mishaps;
use esr_faulty::{Fault, Kind, Turn};
use esr_source::{Call, Failing};

/// In which way a scene is played again and again.
#[derive(Clone, Copy)]
pub enum Way {
    /// It is played once.
    Once,
    /// A call of the container fails, and leaves the old state.
    Old,
    /// A call of the container fails, and leaves the new state.
    New,
    /// What a begin or a fetch gives fails at its first write or read.
    Piece,
    /// A call of the container isn't made, nor any after it.
    Stop,
    /// A call of the container that changes what is held isn't made, nor any call after it.
    Change,
    /// The output takes less than the report.
    Room,
}

/// The way of that name.
pub fn way_of(name: &str) -> Result<Way, Trouble> {
    match name {
        "once" => Ok(Way::Once),
        "old" => Ok(Way::Old),
        "new" => Ok(Way::New),
        "piece" => Ok(Way::Piece),
        "stop" => Ok(Way::Stop),
        "change" => Ok(Way::Change),
        "room" => Ok(Way::Room),
        _ => Err(Trouble("there is no such way")),
    }
}

/// Lets the call of that number go wrong, or the output take one byte fewer than that.
pub fn set_round(mishaps: &mut Mishaps, way: Way, nth: u64) {
    let (kind, turn, stops) = match way {
        Way::Once | Way::Old => (Kind::Any, Turn::Unmade, false),
        Way::New => (Kind::Any, Turn::Lost, false),
        Way::Piece => (Kind::Giving, Turn::Broken, false),
        Way::Stop => (Kind::Any, Turn::Unmade, true),
        Way::Change => (Kind::Changing, Turn::Unmade, true),
        Way::Room => {
            mishaps.room = nth.saturating_sub(1) as usize;
            return;
        }
    };
    mishaps.fault = Fault {
        kind,
        nth,
        turn,
        stops,
    };
}

/// The kind of call of that name.
fn kind_of(name: &str) -> Result<Kind, Trouble> {
    match name {
        "any" => Ok(Kind::Any),
        "begin" => Ok(Kind::Begin),
        "commit" => Ok(Kind::Commit),
        "replace" => Ok(Kind::Replace),
        "fetch" => Ok(Kind::Fetch),
        "list" => Ok(Kind::List),
        "remove" => Ok(Kind::Remove),
        "read-record" => Ok(Kind::ReadRecord),
        "swap-record" => Ok(Kind::SwapRecord),
        _ => Err(Trouble("there is no such call")),
    }
}

/// How a call goes that leaves this.
fn turn_of(leaves: &str) -> Result<Turn, Trouble> {
    match leaves {
        "old" => Ok(Turn::Unmade),
        "new" => Ok(Turn::Lost),
        "piece" => Ok(Turn::Broken),
        _ => Ok(Turn::First(leaves.parse()?)),
    }
}

/// The fault of words such as `commit 2 old`, which stops the container or doesn't.
fn fault_of(words: &str, stops: bool) -> Result<Fault, Trouble> {
    let (name, rest) = words.split_once(' ').unwrap_or((words, "1 old"));
    let (nth, leaves) = rest.split_once(' ').unwrap_or((rest, "old"));
    Ok(Fault {
        kind: kind_of(name)?,
        nth: nth.parse()?,
        turn: turn_of(leaves)?,
        stops,
    })
}

fn failing_call(call: Call, nth: u64) -> Failing {
    Failing { call, nth }
}

/// Lets a call of the source, of the target, of the script or of the output fail.
fn set_outside(mishaps: &mut Mishaps, what: &str, nth: u64) -> Done {
    match what {
        "source-list" => mishaps.source = failing_call(Call::List, nth),
        "source-start" => mishaps.source = failing_call(Call::Start, nth),
        "source-read" => mishaps.source = failing_call(Call::Read, nth),
        "target-create" => mishaps.target = failing_call(Call::Create, nth),
        "target-write" => mishaps.target = failing_call(Call::Write, nth),
        "target-end" => mishaps.target = failing_call(Call::End, nth),
        "reader" => mishaps.read = nth,
        "output" => mishaps.write = nth,
        "room" => mishaps.room = nth as usize,
        _ => return Err(Trouble("there is no such mishap")),
    }
    Ok(())
}

/// Lets something go wrong in the next run.
pub fn set_mishap(mishaps: &mut Mishaps, what: &str, value: &str) -> Done {
    match what {
        "fail" | "stop" => {
            mishaps.fault = fault_of(value, what == "stop")?;
            Ok(())
        }
        _ => set_outside(mishaps, what, value.parse()?),
    }
}
