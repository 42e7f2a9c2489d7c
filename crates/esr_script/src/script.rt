//! The lines of a script.
ghost use Rattle.std.specs.Prelude.{◌≡◌, ◌++◌, ◌+◌, ◌-◌, ◌^◌, ◌<◌, ◌≤◌, [], length, IfOk, OnOk};
ghost use Rattle.esr_script.specs.Lines.{begins_with, lines_from, lines_of, with_piece};
ghost use Rattle.esr_script.specs.Script.{GivesScript, script_from, script_of};

use crate::item::{Script, ScriptLine};
use crate::line::line_of;
use crate::refusal::{Fault, ScriptRefusal};
use esr_seq::{Bytes, Seq};
use std::alloc::{AllocError, AllocFailed, Global};

/// Adds a line that isn't empty.
fn end_line(lines: &mut Seq<Bytes>, line: Bytes) -> Result<(), AllocFailed<Bytes>>
    ensures { OnOk result (lines.new ≡ with_piece lines.old line) }
{
    if !line.is_empty() {
        lines.push(line)?;
    }
    Ok(())
}

fn begins_with_newline(bytes: &[u8]) -> bool
    ensures { result ≡ begins_with 10 bytes.now }
{
    match bytes {
        [c, ..] => *c == b'\n',
        [] => false,
    }
}

#[tactic(auto, unfolding(crate::specs::Lines::lines_from))]
fn lines_of(alloc: Global, bytes: &[u8]) -> Result<Seq<Bytes>, AllocError>
    ensures lines { IfOk result (λ lines. lines ≡ lines_of bytes.now) }
    ensures few { IfOk result (λ lines. length lines ≤ length bytes.now) }
{
    let mut lines = Seq::new(alloc);
    let mut line = Bytes::new(alloc);
    let mut rest = bytes;
    while let [c, more @ ..] = rest {
        if *c == b'\n' {
            lines.push(line)?;
            line = Bytes::new(alloc);
        } else if *c != b'\r' || !begins_with_newline(more) {
            line.push(*c)?;
        }
        rest = more;
    }
    end_line(&mut lines, line)?;
    Ok(lines)
}

#[tactic(auto, unfolding(crate::specs::Script::script_from))]
fn script_from(alloc: Global, lines: &[Bytes]) -> Result<Script, ScriptRefusal>
    requires { length lines.now < 2 ^ 32 - 1 }
    ensures { GivesScript result (script_from [] 1 lines.now) }
{
    let mut script = Seq::new(alloc);
    let mut number: u32 = 1;
    for line in lines {
        match line_of(alloc, line.as_slice()) {
            Ok(Some(item)) => script.push(ScriptLine { number, item })?,
            Ok(None) => {}
            Err(Fault::Memory) => return Err(ScriptRefusal::Memory),
            Err(Fault::Bad(why)) => return Err(ScriptRefusal::BadLine { number, why }),
        }
        number += 1;
    }
    Ok(script)
}

/// The items of a script with the numbers of their lines, or the first bad line with the first thing
/// that is wrong with it. More than 4,194,304 bytes are too long, whatever they are.
pub fn script_read(alloc: Global, bytes: &[u8]) -> Result<Script, ScriptRefusal>
    ensures { GivesScript result (script_of bytes.now) }
{
    if bytes.len() > 4_194_304 {
        return Err(ScriptRefusal::TooLong);
    }
    let lines = lines_of(alloc, bytes)?;
    script_from(alloc, lines.as_slice())
}
