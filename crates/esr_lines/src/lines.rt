//! The report of a run that opened the container.
ghost use Rattle.std.specs.Prelude.{◌≡◌, ◌++◌, map, length, codes, decimal, IfOk, OnOk};
ghost use Rattle.esr_names.specs.IdText.{id_text as text_of_id};
ghost use Rattle.esr_model.specs.Places.{sorted_by};
ghost use Rattle.esr_formats.specs.Roots.{root_snap_of};
ghost use Rattle.esr_desk.specs.Refusals.{refusal_of};
ghost use Rattle.esr_desk.specs.Entries.{why_of};
ghost use Rattle.esr_lines.specs.Lines.{name_first, why_text, refusal_text, snap_texts, op_text, reply_text, line_text, lines_text, report_text};
ghost use Rattle.esr_report.specs.Replies.{replies};
ghost use Rattle.esr_report.specs.Code.{reply_of};

use crate::sorted::sorted_snaps;
use crate::text::{
    push, push_beginning, push_count, push_id, push_last, push_number, push_refusal, push_snap,
    push_why,
};
use esr_desk::{EntryRefusal, History, Why};
use esr_names::Id;
use esr_report::{Replies, Reply, end_of_run};
use esr_root::RootSnap;
use esr_script::{Item, Script, ScriptLine};
use esr_seq::Bytes;
use std::alloc::{AllocError, Global};

/// Appends the lines of these snapshots.
pub fn push_snaps(out: &mut Bytes, snaps: &[RootSnap]) -> Result<(), AllocError>
    ensures { OnOk result (out.new ≡ out.old ++ snap_texts (map root_snap_of snaps.now)) }
{
    for snap in snaps {
        push_snap(out, snap)?;
    }
    Ok(())
}

fn push_made(out: &mut Bytes, uuid: Id) -> Result<(), AllocError>
    ensures { OnOk result (out.new ≡ out.old ++ (codes " ok " ++ text_of_id uuid.number ++ codes "\n")) }
{
    push(out, b" ok ")?;
    push_id(out, uuid)?;
    push(out, b"\n")
}

fn push_listed(out: &mut Bytes, alloc: Global, snaps: &[RootSnap]) -> Result<(), AllocError>
    ensures { OnOk result (out.new ≡ out.old ++ (codes " " ++ decimal (length snaps.now) ++ codes "\n" ++ snap_texts (sorted_by name_first (map root_snap_of snaps.now)))) }
{
    push(out, b" ")?;
    push_number(out, snaps.len() as u64)?;
    push(out, b"\n")?;
    let sorted = sorted_snaps(alloc, snaps)?;
    push_snaps(out, sorted.as_slice())
}

fn push_deleted(out: &mut Bytes, op: u64) -> Result<(), AllocError>
    ensures { OnOk result (out.new ≡ out.old ++ (codes " ok op " ++ decimal op ++ codes "\n")) }
{
    push_count(out, b" ok op ", op)?;
    push(out, b"\n")
}

fn push_restored(out: &mut Bytes, files: u64, bytes: u64) -> Result<(), AllocError>
    ensures { OnOk result (out.new ≡ out.old ++ (codes " ok files " ++ decimal files ++ codes " bytes " ++ decimal bytes ++ codes "\n")) }
{
    push_count(out, b" ok files ", files)?;
    push_count(out, b" bytes ", bytes)?;
    push(out, b"\n")
}

fn push_cleaned(out: &mut Bytes, blobs: u64, bytes: u64) -> Result<(), AllocError>
    ensures { OnOk result (out.new ≡ out.old ++ (codes " ok blobs " ++ decimal blobs ++ codes " bytes " ++ decimal bytes ++ codes "\n")) }
{
    push_count(out, b" ok blobs ", blobs)?;
    push_count(out, b" bytes ", bytes)?;
    push(out, b"\n")
}

fn push_term(out: &mut Bytes, term: u64) -> Result<(), AllocError>
    ensures { OnOk result (out.new ≡ out.old ++ (codes " term " ++ decimal term ++ codes "\n")) }
{
    push_count(out, b" term ", term)?;
    push(out, b"\n")
}

fn push_checked(out: &mut Bytes, snapshots: u64, blobs: u64) -> Result<(), AllocError>
    ensures { OnOk result (out.new ≡ out.old ++ (codes " ok snapshots " ++ decimal snapshots ++ codes " blobs " ++ decimal blobs ++ codes "\n")) }
{
    push_count(out, b" ok snapshots ", snapshots)?;
    push_count(out, b" blobs ", blobs)?;
    push(out, b"\n")
}

fn push_refused(out: &mut Bytes, item: &Item, refusal: &EntryRefusal) -> Result<(), AllocError>
    ensures { OnOk result (out.new ≡ out.old ++ (refusal_text item.now (refusal_of refusal.now) ++ codes "\n")) }
{
    push_refusal(out, item, refusal)?;
    push(out, b"\n")
}

/// Appends the op of a failed delete.
fn push_op(out: &mut Bytes, op: Option<u64>) -> Result<(), AllocError>
    ensures { OnOk result (out.new ≡ out.old ++ op_text op) }
{
    match op {
        Some(op) => push_count(out, b" op ", op),
        None => Ok(()),
    }
}

fn push_failed(out: &mut Bytes, why: &Why, op: Option<u64>) -> Result<(), AllocError>
    ensures { OnOk result (out.new ≡ out.old ++ (codes " failed " ++ why_text (why_of why.now) ++ op_text op ++ codes "\n")) }
{
    push(out, b" failed ")?;
    push_why(out, why)?;
    push_op(out, op)?;
    push(out, b"\n")
}

fn push_aborted(out: &mut Bytes, by: u64) -> Result<(), AllocError>
    ensures { OnOk result (out.new ≡ out.old ++ (codes " aborted " ++ decimal by ++ codes "\n")) }
{
    push_count(out, b" aborted ", by)?;
    push(out, b"\n")
}

/// Appends what follows a command's beginning.
fn push_reply(out: &mut Bytes, alloc: Global, item: &Item, reply: &Reply) -> Result<(), AllocError>
    ensures { OnOk result (out.new ≡ out.old ++ reply_text item.now (reply_of reply.now)) }
{
    match reply {
        Reply::Made { uuid } => push_made(out, *uuid),
        Reply::Deleted { op } => push_deleted(out, *op),
        Reply::Restored { files, bytes } => push_restored(out, *files, *bytes),
        Reply::Cleaned { blobs, bytes } => push_cleaned(out, *blobs, *bytes),
        Reply::Term { term } => push_term(out, *term),
        Reply::Waited => push(out, b"\n"),
        Reply::Listed { snapshots } => push_listed(out, alloc, snapshots.as_slice()),
        Reply::Checked { snapshots, blobs } => push_checked(out, *snapshots, *blobs),
        Reply::Verified => push(out, b" ok\n"),
        Reply::Refused { refusal } => push_refused(out, item, refusal),
        Reply::Failed { why, op } => push_failed(out, why, *op),
        Reply::Aborted { by } => push_aborted(out, *by),
        Reply::Deposed => push(out, b" deposed\n"),
    }
}

/// Appends a command's line.
#[tactic(auto, unfolding(crate::specs::Lines::line_text))]
pub fn push_line(
    out: &mut Bytes,
    alloc: Global,
    line: &ScriptLine,
    reply: &Reply,
) -> Result<(), AllocError>
    ensures { OnOk result (out.new ≡ out.old ++ line_text line.now (reply_of reply.now)) }
{
    push_beginning(out, u64::from(line.number), &line.item)?;
    push_reply(out, alloc, &line.item, reply)
}

/// Appends the lines of the commands that were answered.
fn push_lines(
    out: &mut Bytes,
    alloc: Global,
    lines: &[ScriptLine],
    replies: &[Reply],
) -> Result<(), AllocError>
    ensures { OnOk result (out.new ≡ out.old ++ lines_text lines.now (map reply_of replies.now)) }
{
    let mut left = lines;
    for reply in replies {
        let [line, more @ ..] = left else {
            return Ok(());
        };
        push_line(out, alloc, line, reply)?;
        left = more;
    }
    Ok(())
}

/// The whole report of a run that opened the container: a line for each command that was answered, and one for what
/// ended the run early.
#[tactic(auto, unfolding(crate::specs::Lines::report_text))]
pub fn report(
    alloc: Global,
    script: &Script,
    history: &History,
    answers: &Replies,
) -> Result<Bytes, AllocError>
    requires { map reply_of answers.now ≡ replies script.now history.now }
    ensures { IfOk result (λ text. text ≡ report_text script.now history.now) }
{
    let mut text = Bytes::new(alloc);
    push_lines(&mut text, alloc, script.as_slice(), answers.as_slice())?;
    push_last(&mut text, end_of_run(script, history, answers))?;
    Ok(text)
}
