//! Scripts, outputs, the gate and the words of errors, as a subject.
ghost use Rattle.std.specs.Prelude.{◌≤◌, IfOk};

use crate::memory_files::nth_of;
use esr_depot::{CallError, Counted, Failed};
use esr_scenes::{Subject, cut, say, say_bytes, say_faults, say_number};
use esr_seq::{Bytes, Seq};
use esr_source::{
    Failing, Gate, Lines, MemLines, MemOut, NoGate, Out, Plan, Point, StdLines, StdOut,
};
use std::alloc::{AllocError, Global};
use std::io::{self, ErrorKind, Read, Write};

type Done = Result<(), AllocError>;

/// A stream that moves as many bytes as it is told, and then fails.
#[derive(Drop)]
struct Broken {
    counts: [usize; 2],
    calls: usize,
}

impl Broken {
    /// How many of these bytes the next call moves.
    fn turn(&mut self, length: usize) -> io::Result<usize>
        ensures { IfOk result (λ count. count ≤ length) }
    {
        let call = self.calls;
        self.calls = call.saturating_add(1);
        if call >= self.counts.len() {
            return Err(io::Error::from(ErrorKind::Other));
        }
        Ok(self.counts[call].min(length))
    }
}

impl Read for Broken {
    fn read(&mut self, buf: &mut [u8]) -> io::Result<usize> {
        self.turn(buf.len())
    }
}

impl Write for Broken {
    fn write(&mut self, buf: &[u8]) -> io::Result<usize> {
        self.turn(buf.len())
    }

    fn flush(&mut self) -> io::Result<()> {
        Ok(())
    }
}

fn size_of(word: &str) -> usize {
    word.parse::<usize>().unwrap_or(0)
}

/// The stream that moves as many bytes as the words `COUNT COUNT` say.
fn make_broken(words: &str) -> Broken {
    let (first, second) = cut(words);
    Broken {
        counts: [size_of(first), size_of(second)],
        calls: 0,
    }
}

/// The plan by which the call `VERB NTH` fails, or none.
fn plan_of(alloc: Global, words: &str) -> Result<Plan, AllocError> {
    let mut plan = Seq::new(alloc);
    if let Some((call, nth)) = nth_of(words) {
        plan.push(Failing { call, nth })?;
    }
    Ok(plan)
}

/// Says how many bytes a read or a write moves, or that it fails.
fn say_count(line: &mut String, answer: Result<usize, Failed>) {
    match answer {
        Ok(count) => say_number(line, count as u64),
        Err(Failed) => say(line, "-"),
    }
    say(line, " ");
}

/// Says what four reads of two bytes give.
fn say_lines<L: Lines>(mut lines: L, line: &mut String) {
    let mut buf = [0u8; 2];
    for _ in 0..4 {
        say_count(line, lines.read(&mut buf));
    }
    say_faults(line, lines.fault_count());
}

/// Says what the writes of `abc`, of nothing, of `de` and of `f` give.
fn say_out<O: Out>(out: &mut O, line: &mut String) {
    for piece in ["abc", "", "de", "f"] {
        say_count(line, out.write(piece.as_bytes()));
    }
    say_faults(line, out.fault_count());
}

fn read_memory(alloc: Global, text: &str, fails: &str, line: &mut String) -> Done {
    let bytes = Bytes::from_slice(alloc, text.as_bytes())?;
    say_lines(MemLines::new(bytes, plan_of(alloc, fails)?), line);
    Ok(())
}

fn write_memory(alloc: Global, room: &str, fails: &str, line: &mut String) -> Done {
    let mut out = MemOut::new(alloc, size_of(room), plan_of(alloc, fails)?)?;
    say_out(&mut out, line);
    say(line, " ");
    say_bytes(line, out.as_slice());
    Ok(())
}

/// A gate at a point, by its words.
fn pass_gate(word: &str, line: &mut String) {
    let point = match word {
        "writing" => Point::Writing { ticket: 1 },
        _ => Point::Written { ticket: 1 },
    };
    NoGate.at(point);
    say(line, "passed");
}

/// Says the words of an error, by its name.
fn say_error(word: &str, line: &mut String) {
    let _ = match word {
        "memory" => write!(line, "{}", CallError::Memory),
        "failed" => write!(line, "{}", CallError::Failed),
        "from-failed" => write!(line, "{}", CallError::from(Failed)),
        _ => write!(line, "{Failed}"),
    };
}

/// The streams of the program, and those of the calls.
///
/// | Call | What it does | Answers |
/// |---|---|---|
/// | `read-memory TEXT [read NTH]` | reads two bytes four times from a script in memory, of which that call fails | counts, of which `-` is a failure, and the faults |
/// | `read-slice TEXT`, `read-stream COUNT COUNT` | the same from a slice; from a stream that moves so many bytes and then fails | |
/// | `write-memory ROOM [write NTH]` | writes `abc`, nothing, `de` and `f` to an output in memory, of which that call fails | also what it holds |
/// | `write-stream COUNT COUNT` | the same to a stream that moves so many bytes and then fails | |
/// | `standard` | takes the standard streams, and writes nothing | `-` where that fails, and the faults |
/// | `gate POINT` | | `passed` |
/// | `error WORD` | | the words of the error |
#[derive(Drop)]
pub(crate) struct Streams<'a> {
    pub rt: &'a HostRuntime,
}

impl Streams<'_> {
    fn say_standard(&self, line: &mut String) {
        let lines = StdLines::new(self.rt.stdin());
        let mut out = StdOut::new(self.rt.stdout());
        say_count(line, out.write(b""));
        say_faults(line, lines.fault_count());
    }

    /// Makes a call that wants no memory.
    fn say_plain(&self, verb: &str, rest: &str, line: &mut String) {
        let (word, _) = cut(rest);
        match verb {
            "read-slice" => say_lines(StdLines::new(word.as_bytes()), line),
            "read-stream" => say_lines(StdLines::new(make_broken(rest)), line),
            "write-stream" => say_out(&mut StdOut::new(make_broken(rest)), line),
            "standard" => self.say_standard(line),
            "gate" => pass_gate(word, line),
            "error" => say_error(word, line),
            _ => say(line, "no such call"),
        }
    }

    fn say(&self, alloc: Global, call: &str, line: &mut String) -> Done {
        let (verb, rest) = cut(call);
        let (word, fails) = cut(rest);
        match verb {
            "read-memory" => read_memory(alloc, word, fails, line),
            "write-memory" => write_memory(alloc, word, fails, line),
            _ => {
                self.say_plain(verb, rest, line);
                Ok(())
            }
        }
    }
}

impl Subject for Streams<'_> {
    fn call(&mut self, alloc: Global, call: &str, line: &mut String) {
        if self.say(alloc, call, line).is_err() {
            say(line, "no memory");
        }
    }
}
