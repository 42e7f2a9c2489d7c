//! What a run shows, and what its history tells.
use esr_depot::Counted;
use esr_desk::{Answer, Entry, EntryRefusal, FailedObject, Fault, Read, Step, Why};
use esr_dirsource::DirTarget;
use esr_faulty::Faulty;
use esr_hash::{Print, print_text};
use esr_scenes::{say, say_bytes, say_number};
use esr_source::MemTarget;
use esr_targets::Restored;
use std::alloc::Global;
use std::rt::Files;

/// A target that shows the files that it has, where it is in memory.
pub trait Shows {
    /// Says their names and texts.
    fn say_files(&self, said: &mut String);
}

impl Shows for MemTarget {
    fn say_files(&self, said: &mut String) {
        for file in self.files() {
            say(said, " ");
            say(said, file.name.as_str());
            say(said, "=");
            say_bytes(said, file.bytes.as_slice());
        }
    }
}

impl<R: Files> Shows for DirTarget<'_, R> {
    fn say_files(&self, _said: &mut String) {}
}

/// What a run has shown, and what is asked of it then.
#[derive(Drop)]
pub struct Shown {
    /// Its report, the objects that failed, the shards that it restored, and its exit status.
    pub text: String,
    /// How often its container failed.
    pub faults: u64,
    /// How many entries tell that the container failed.
    pub told: u64,
    /// How many entries settle a snapshot, whose record may stand.
    pub settles: u64,
    /// The prints that were stated and found of the files that have others.
    pub misprints: String,
    /// Whether the call that goes wrong was made, or was to be.
    pub was_hit: bool,
}

/// What is shown before a run.
pub fn nothing_shown(alloc: Global) -> Shown {
    Shown {
        text: String::new(alloc),
        faults: 0,
        told: 0,
        settles: 0,
        misprints: String::new(alloc),
        was_hit: false,
    }
}

/// A word for an object that failed, and how often it did.
fn object_of<S: Counted, F: Counted, H: Counted, T: Counted>(
    object: &FailedObject<S, F, H, T>,
) -> (&'static str, u64) {
    match object {
        FailedObject::Stage { stage } => ("stage", stage.fault_count()),
        FailedObject::Fetch { fetch } => ("fetch", fetch.fault_count()),
        FailedObject::Shard { shard } => ("shard", shard.fault_count()),
        FailedObject::Target { target } => ("target", target.fault_count()),
    }
}

/// Says in a line what an object is that failed, how often it did, and the files of a target.
fn say_failed<S: Counted, F: Counted, H: Counted, T: Counted + Shows>(
    said: &mut String,
    fault: &Fault<S, F, H, T>,
) {
    let (object, count) = object_of(&fault.object);
    say(said, "failed ");
    say(said, object);
    if fault.entry.is_none() {
        say(said, " of the opening");
    }
    say(said, " ");
    say_number(said, count);
    if let FailedObject::Target { target } = &fault.object {
        target.say_files(said);
    }
    say(said, "\n");
}

/// Says what is shown of a restored shard but its files: the number of the script's line, the index and the shard.
pub fn say_restored<T>(said: &mut String, restored: &Restored<T>) {
    let (line, shard) = (restored.line, restored.shard);
    let _ = write!(said, "restored {line} {} {shard}", restored.index.as_str());
}

/// Says the exit status of a run.
pub fn say_exit(said: &mut String, status: u8) {
    let _ = write!(said, "exit {status}\n");
}

/// Whether the entry tells that the container failed.
fn is_fault(entry: &Entry) -> bool {
    matches!(
        entry.answer,
        Answer::Refused {
            refusal: EntryRefusal::DepotFault
        }
    )
}

/// Whether the entry is a settle whose record may stand.
fn may_settle(entry: &Entry) -> bool {
    matches!(entry.step, Step::Settle)
        && (matches!(entry.answer, Answer::Settled) || is_fault(entry))
}

/// Says the length and the digest of a file.
fn say_print(said: &mut String, print: &Print) {
    say(said, " ");
    say_number(said, print.len);
    say(said, " ");
    say_bytes(said, &print_text(print));
}

/// Says the prints that were stated and found, where the entry fails a shard's restore for them.
fn say_misprint(said: &mut String, entry: &Entry) {
    if let Step::Read {
        read: Read::Failed {
            why: Why::Misprinted { stated, found, .. },
        },
    } = &entry.step
    {
        say_print(said, stated);
        say_print(said, found);
    }
}

/// Says the prints of the entries that fail for them. Answers how many tell that the container failed, and how many may settle.
fn say_misprints(said: &mut String, entries: &[Entry]) -> (u64, u64) {
    let (mut faults, mut settles) = (0u64, 0u64);
    for entry in entries {
        say_misprint(said, entry);
        faults = faults.saturating_add(is_fault(entry) as u64);
        settles = settles.saturating_add(may_settle(entry) as u64);
    }
    (faults, settles)
}

/// What a run shows but the shards that it restored and its exit status: its report, the objects that failed, and what its
/// container and its history tell.
pub fn shown_by<D: Counted, S: Counted, F: Counted, H: Counted, T: Counted + Shows>(
    alloc: Global,
    report: &[u8],
    failed: &[Fault<S, F, H, T>],
    depot: &Faulty<D>,
    history: &[Entry],
) -> Shown {
    let mut text = String::new(alloc);
    say_bytes(&mut text, report);
    for fault in failed {
        say_failed(&mut text, fault);
    }
    let mut misprints = String::new(alloc);
    let (told, settles) = say_misprints(&mut misprints, history);
    Shown {
        text,
        faults: depot.fault_count(),
        told,
        settles,
        misprints,
        was_hit: depot.was_hit,
    }
}
