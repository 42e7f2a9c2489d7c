//! Sources and targets in memory, as a subject.
use crate::address::{file_of, words_of};
use crate::plan::number_of;
use crate::shards::say_open_shard;
use crate::targets::say_target;
use esr_scenes::{Subject, cut, say, say_bytes};
use esr_seq::Seq;
use esr_source::{
    Address, Call, FailingAt, MemFile, MemShard, MemSource, MemSources, MemTargets, Sources,
    Targets,
};
use std::alloc::{AllocError, Global};

/// Sources and targets in memory, and the shard that was opened last. The calls are those of `shards` and `targets`, and:
///
/// | Call | What it does |
/// |---|---|
/// | `source PLACE INDEX NUMBER FILES` | a shard has the files `NAME=BYTES`, with bars between them |
/// | `fails PLACE INDEX NUMBER VERB NTH` | that call of a shard or of a target fails |
/// | `shard PLACE INDEX NUMBER` | a shard is opened |
#[derive(Drop)]
pub(crate) struct MemoryFiles {
    sources: MemSources,
    targets: MemTargets,
    shard: Option<MemShard>,
}

fn files_of(alloc: Global, files: &str) -> Result<Seq<MemFile>, AllocError> {
    let mut list = Seq::new(alloc);
    for file in files.split('|') {
        let (name, bytes) = file_of(file);
        list.push(MemFile::new(alloc, name, bytes.as_bytes())?)?;
    }
    Ok(list)
}

fn source_of(alloc: Global, call: &str) -> Result<MemSource, AllocError> {
    let words = words_of(call);
    Ok(MemSource {
        address: Address::new(alloc, words.place, words.index, words.number)?,
        files: files_of(alloc, words.rest)?,
    })
}

/// What the lines `source ..` of a scene say.
fn sources_of(alloc: Global, lines: &str) -> Result<Seq<MemSource>, AllocError> {
    let mut sources = Seq::new(alloc);
    for line in lines.lines() {
        if let Some(call) = line.trim().strip_prefix("source ") {
            sources.push(source_of(alloc, call)?)?;
        }
    }
    Ok(sources)
}

fn call_of(verb: &str) -> Option<Call> {
    match verb {
        "list" => Some(Call::List),
        "start" => Some(Call::Start),
        "read" => Some(Call::Read),
        "create" => Some(Call::Create),
        "write" => Some(Call::Write),
        "end" => Some(Call::End),
        _ => None,
    }
}

/// The kind of call and its number in `VERB NTH`.
pub(crate) fn nth_of(words: &str) -> Option<(Call, u64)> {
    let (verb, nth) = cut(words);
    call_of(verb).zip(number_of(nth))
}

/// The failure that a line `fails ..` plans, or none.
fn failing_of(alloc: Global, call: &str) -> Result<Option<FailingAt>, AllocError> {
    let words = words_of(call);
    let Some((call, nth)) = nth_of(words.rest) else {
        return Ok(None);
    };
    let address = Address::new(alloc, words.place, words.index, words.number)?;
    Ok(Some(FailingAt { address, call, nth }))
}

/// What the lines `fails ..` of a scene plan.
fn plan_of(alloc: Global, lines: &str) -> Result<Seq<FailingAt>, AllocError> {
    let mut plan = Seq::new(alloc);
    for line in lines.lines() {
        if let Some(call) = line.trim().strip_prefix("fails ")
            && let Some(failing) = failing_of(alloc, call)?
        {
            plan.push(failing)?;
        }
    }
    Ok(plan)
}

impl MemoryFiles {
    /// Sources and targets for a scene of these lines.
    pub fn new(alloc: Global, lines: &str) -> Result<MemoryFiles, AllocError> {
        let sources = MemSources::new(sources_of(alloc, lines)?, plan_of(alloc, lines)?);
        Ok(MemoryFiles {
            sources,
            targets: MemTargets::new(plan_of(alloc, lines)?),
            shard: None,
        })
    }

    fn open(&mut self, alloc: Global, call: &str, line: &mut String) {
        let (sources, words) = (&self.sources, words_of(call));
        match sources.shard(alloc, words.place, words.index, words.number) {
            Ok(shard) => self.shard = Some(shard),
            Err(_) => say(line, "no memory"),
        }
    }

    /// Makes a file in a new target, and says the files that it has then.
    fn say_target(&self, alloc: Global, verb: &str, call: &str, line: &mut String) {
        let (targets, words) = (&self.targets, words_of(call));
        let Ok(mut target) = targets.target(alloc, words.place, words.index, words.number) else {
            return say(line, "no memory");
        };
        say_target(alloc, &mut target, verb, words.rest, line);
        for file in target.files() {
            say(line, " ");
            say(line, file.name.as_str());
            say(line, "=");
            say_bytes(line, file.bytes.as_slice());
        }
    }
}

impl Subject for MemoryFiles {
    fn call(&mut self, alloc: Global, call: &str, line: &mut String) {
        let (verb, rest) = cut(call);
        match verb {
            "source" => {}
            "fails" if nth_of(words_of(rest).rest).is_some() => {}
            "shard" => self.open(alloc, rest, line),
            "list" | "read" => say_open_shard(alloc, &mut self.shard, call, line),
            _ => self.say_target(alloc, verb, rest, line),
        }
    }
}
