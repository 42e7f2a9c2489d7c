//! How a run ended, and the printing of it.
ghost use Rattle.std.specs.Prelude.{◌≡◌, [], true, not};
ghost use Rattle.std.specs.Io.KnownBytes.{Appends};
ghost use Rattle.esr_depot.specs.Calls.{HasCause};
ghost use Rattle.esr_desk.specs.Entries.{step_of};
ghost use Rattle.esr_report.specs.Replies.{replies};
ghost use Rattle.esr_run.specs.Ends.{Carried};
ghost use Rattle.esr_run.specs.Causes.{IsTold, exit_unprinted, TookFront, IsPrinted};
ghost use Rattle.esr_run.specs.Stops.{end_of};
ghost use Rattle.std.specs.Prelude.{Some, IfOk};

use crate::stop::{Stop, stop_status, stop_text};
use esr_desk::History;
use esr_lines::report;
use esr_report::{end_of_run, replies};
use esr_script::Script;
use esr_seq::Bytes;
use esr_source::Out;
use std::alloc::{AllocError, Global};

/// An exit status, and what is printed before.
#[derive(Drop)]
pub(crate) struct Verdict {
    pub status: u8,
    pub text: Bytes,
}

/// The verdict of a run for which there was no memory.
pub(crate) fn wanting(alloc: Global) -> Verdict
    ensures status { result.status ≡ 8 }
    ensures text { result.text ≡ [] }
{
    Verdict {
        status: 8,
        text: Bytes::new(alloc),
    }
}

/// The verdict of a run that ended early.
pub(crate) fn stopped(alloc: Global, stop: &Stop) -> Verdict
    ensures { IsTold result.status result.text (end_of stop.now) }
{
    match stop_text(alloc, stop) {
        Ok(text) => Verdict {
            status: stop_status(stop),
            text,
        },
        Err(_) => wanting(alloc),
    }
}

fn try_reported(alloc: Global, script: &Script, history: &History) -> Result<Verdict, AllocError>
    ensures { IfOk result (λ v. IsTold v.status v.text (Some (Carried script.now history.now))) }
{
    let answers = replies(alloc, script, history)?;
    let text = report(alloc, script, history, &answers)?;
    let status = end_of_run(script, history, &answers).status();
    Ok(Verdict { status, text })
}

/// The verdict of a run whose script was carried out.
pub(crate) fn reported(alloc: Global, script: &Script, history: &History) -> Verdict
    ensures { IsTold result.status result.text (Some (Carried script.now history.now)) }
{
    match try_reported(alloc, script, history) {
        Ok(verdict) => verdict,
        Err(AllocError) => wanting(alloc),
    }
}

/// Writes the whole text, and answers whether it could; if not, the front of it was written.
fn print<O: Out>(out: &mut O, text: &[u8]) -> bool
    ensures front { TookFront (O.contents out.old) (O.contents out.new) text.now }
    ensures written { result ≡ true → Appends (O.contents out.old) (O.contents out.new) text.now }
    ensures cause { HasCause (O.faults out.old) (O.faults out.new) (not result) }
{
    let mut rest = text;
    while !rest.is_empty() {
        match out.write(rest) {
            Ok(taken) => rest = &rest[taken..],
            Err(_) => return false,
        }
    }
    true
}

/// The exit status where a write failed: 5 in place of 0 and 1.
fn exit_unprinted(status: u8) -> u8
    ensures { result ≡ exit_unprinted status }
{
    if status > 1 { status } else { 5 }
}

/// Prints the text of a verdict, and answers the exit status.
pub(crate) fn print_verdict<O: Out>(out: &mut O, verdict: &Verdict) -> u8
    ensures printed { IsPrinted result verdict.now.status verdict.now.text (O.contents out.old) (O.contents out.new) (O.faults out.old) (O.faults out.new) }
{
    if print(out, verdict.text.as_slice()) {
        verdict.status
    } else {
        exit_unprinted(verdict.status)
    }
}
