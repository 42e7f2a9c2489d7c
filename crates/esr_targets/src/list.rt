//! The list of targets, by the lines that asked for them.
ghost use Rattle.std.specs.Prelude.{◌≡◌, ◌≤◌, ◌++◌, ◌∷◌, [], length, take, drop, IfOk, OnOk};
ghost use Rattle.std.specs.Option.{MatchOption, option_to_list};
ghost use Rattle.esr_model.specs.Places.{by_order, put_by, sorted_by};
ghost use Rattle.esr_desk.specs.Entries.{step_of};
ghost use Rattle.esr_quiet.specs.Asked.{is_line_ask, is_asked};
ghost use Rattle.esr_script.specs.Kinds.{asks_step};
ghost use Rattle.esr_targets.specs.Lines.{asked_entries, op_of_reply, ops_of_lines};
ghost use Rattle.esr_targets.specs.Listed.{target_first, line_of, listed_at, listed};

use crate::target::{Restored, TargetList};
use esr_desk::{Answer, Entry, Read, RestoredTarget, RestoredTargets, Step};
use esr_script::{Item, Kind, ScriptLine};
use esr_seq::Seq;
use std::alloc::{AllocError, Global};
use std::cmp::Ordering;
use std::marker::Model;

/// The op of a restore, with the number of the line that asked for it. A contract sees the pair.
#[derive(Drop)]
struct LineOp {
    op: u64,
    line: u32,
}

impl Model for LineOp {
    ghost use Rattle.std.specs.Prelude.{ℕ};

    ghost Value = { ℕ × ℕ };

    ghost view = { λ o. (o.op, o.line) };
}

/// A line asks for such a step.
fn is_line_ask(step: &Step) -> bool
    ensures { result ≡ is_line_ask (step_of step.now) }
{
    match step {
        Step::Take => false,
        Step::Elect => false,
        Step::Read { read } => matches!(read, Read::DrawTest),
        _ => true,
    }
}

/// A line asked for it.
fn is_asked(entry: &Entry) -> bool
    ensures { result ≡ is_asked entry.now }
{
    entry.who == 0 && is_line_ask(&entry.step)
}

/// The next entry that a line asked for, and the entries after it.
fn next_asked(entries: &[Entry]) -> Option<(&Entry, &[Entry])>
    ensures { MatchOption result (asked_entries entries.now ≡ []) (λ r. asked_entries entries.now ≡ r.0.now ∷ asked_entries r.1.now) }
{
    let mut rest = entries;
    while let [entry, more @ ..] = rest {
        if is_asked(entry) {
            return Some((entry, more));
        }
        rest = more;
    }
    None
}

/// The line asks for a step.
fn asks_step(item: &Item) -> bool
    ensures { result ≡ asks_step item.now }
{
    !matches!(item.kind(), Kind::Failover | Kind::Wait)
}

/// Appends the op of the entry under the line, if it accepted a restore.
fn push_op(ops: &mut Vec<LineOp>, line: u32, entry: &Entry) -> Result<(), AllocError>
    ensures { OnOk result (ops.new.items ≡ ops.old.items ++ op_of_reply line entry.now.reply) }
{
    if let Answer::AcceptedRestore { op, .. } = &entry.answer {
        let known = LineOp { op: *op, line };
        ops.push(known)?;
    }
    Ok(())
}

/// The ops of the restores that the lines asked for, as the history tells.
#[tactic(auto, unfolding(crate::specs::Lines::ops_of_lines))]
fn ops_of_lines(
    alloc: Global,
    lines: &[ScriptLine],
    history: &[Entry],
) -> Result<Vec<LineOp>, AllocError>
    ensures { IfOk result (λ ops. ops.items ≡ ops_of_lines lines.now history.now) }
{
    let mut ops = Vec::new(alloc);
    let mut rest = history;
    for line in lines {
        if !asks_step(&line.item) {
            continue;
        }
        let Some((entry, more)) = next_asked(rest) else {
            return Ok(ops);
        };
        push_op(&mut ops, line.number, entry)?;
        rest = more;
    }
    Ok(ops)
}

/// The line that is listed first with the op.
fn line_of(ops: &[LineOp], op: u64) -> Option<u32>
    ensures { result ≡ line_of ops.now op }
{
    for known in ops {
        if known.op == op {
            return Some(known.line);
        }
    }
    None
}

/// The target under the line of its op, if there is one.
fn listed_at<T: Drop>(ops: &[LineOp], filled: RestoredTarget<T>) -> Option<Restored<T>>
    ensures { option_to_list result ≡ listed_at filled (line_of ops.now filled.op) }
{
    let line = line_of(ops, filled.op)?;
    Some(Restored {
        line,
        index: filled.index,
        shard: filled.shard,
        target: filled.target,
    })
}

/// Appends a value where there is one.
fn keep<T: Drop>(list: &mut Vec<T>, item: Option<T>) -> Result<(), AllocError>
    ensures { OnOk result (list.new.items ≡ list.old.items ++ option_to_list item) }
{
    if let Some(item) = item {
        list.push(item)?;
    }
    Ok(())
}

/// The targets under the lines of their ops.
fn listed<T: Drop>(
    alloc: Global,
    ops: &[LineOp],
    restored: RestoredTargets<T>,
) -> Result<Vec<Restored<T>>, AllocError>
    ensures { IfOk result (λ found. found.items ≡ listed ops.now restored) }
{
    let mut found = Vec::with_capacity(alloc, restored.len())?;
    for filled in restored.into_vec() {
        keep(&mut found, listed_at(ops, filled))?;
    }
    Ok(found)
}

/// By the order, and by the tie where that is equal.
fn by_order(order: Ordering, tie: bool) -> bool
    ensures { result ≡ by_order order tie }
{
    match order {
        Ordering::Less => true,
        Ordering::Equal => tie,
        Ordering::Greater => false,
    }
}

/// The first isn't behind the second, by line, index and shard.
fn comes_first<T>(a: &Restored<T>, b: &Restored<T>) -> bool
    ensures { result ≡ target_first a.now b.now }
{
    let by_shard = a.shard <= b.shard;
    let by_index = by_order(a.index.as_str().cmp(b.index.as_str()), by_shard);
    by_order(a.line.cmp(&b.line), by_index)
}

/// Where the target goes among sorted ones.
fn place_of<T>(sorted: &[Restored<T>], target: &Restored<T>) -> usize
    ensures within { result ≤ length sorted.now }
    ensures put { put_by target_first target.now sorted.now ≡ take result sorted.now ++ target.now ∷ drop result sorted.now }
{
    let mut place = 0;
    for old in sorted {
        if comes_first(target, old) {
            return place;
        }
        place += 1;
    }
    place
}

/// The targets by line, index and shard.
fn sorted<T: Drop>(alloc: Global, found: Vec<Restored<T>>) -> Result<Vec<Restored<T>>, AllocError>
    ensures { IfOk result (λ s. s.items ≡ sorted_by target_first found.items) }
{
    let mut sorted = Vec::with_capacity(alloc, found.len())?;
    let mut left = found;
    while let Some(last) = left.pop() {
        let place = place_of(&sorted, &last);
        sorted.insert(place, last)?;
    }
    Ok(sorted)
}

/// The restored shards of a run, by line, index and shard: each that a line of the script asked for, as the history tells.
pub fn targets_of<T: Drop>(
    alloc: Global,
    lines: &[ScriptLine],
    history: &[Entry],
    restored: RestoredTargets<T>,
) -> Result<TargetList<T>, AllocError>
    ensures { IfOk result (λ targets. targets ≡ sorted_by target_first (listed (ops_of_lines lines.now history.now) restored)) }
{
    let ops = ops_of_lines(alloc, lines, history)?;
    let found = listed(alloc, ops.as_slice(), restored)?;
    Ok(Seq::from_vec(sorted(alloc, found)?))
}
