//! The text of a report.
ghost use Rattle.std.specs.Prelude.{◌≡◌, ◌++◌, [], map, get_or, codes, decimal, IfOk, OnOk};
ghost use Rattle.esr_names.specs.IdText.{id_text as text_of_id};
ghost use Rattle.esr_formats.specs.Names.{name_kind, name_of};
ghost use Rattle.esr_formats.specs.Roots.{root_snap_of};
ghost use Rattle.esr_desk.specs.Refusals.{refusal_of};
ghost use Rattle.esr_desk.specs.Entries.{why_of};
ghost use Rattle.esr_lines.specs.Lines.{why_text, name_at, index_at, refusal_text, state_text, snap_text, name_after, item_text, last_line};
ghost use Rattle.esr_report.specs.Code.{ending_of};

use esr_desk::{EntryRefusal, Why};
use esr_formats::append_name;
use esr_names::{BlobName, Id, SnapName, id_text};
use esr_report::Ending;
use esr_root::RootSnap;
use esr_script::Item;
use esr_seq::Bytes;
use itoa::Buffer;
use std::alloc::AllocError;

pub fn push(out: &mut Bytes, text: &[u8]) -> Result<(), AllocError>
    ensures { OnOk result (out.new ≡ out.old ++ text.now) }
{
    out.extend_from_slice(text)
}

pub fn push_number(out: &mut Bytes, number: u64) -> Result<(), AllocError>
    ensures { OnOk result (out.new ≡ out.old ++ decimal number) }
{
    let mut digits = Buffer::new();
    out.extend_from_slice(digits.format(number).as_bytes())
}

pub fn push_id(out: &mut Bytes, id: Id) -> Result<(), AllocError>
    ensures { OnOk result (out.new ≡ out.old ++ text_of_id id.number) }
{
    out.extend_from_slice(&id_text(id))
}

/// Appends these words and the name of a blob.
fn push_named(out: &mut Bytes, words: &[u8], name: &BlobName) -> Result<(), AllocError>
    ensures { OnOk result (out.new ≡ out.old ++ (words.now ++ name_kind.text (name_of name.now))) }
{
    push(out, words)?;
    append_name(out, name)
}

pub fn push_why(out: &mut Bytes, why: &Why) -> Result<(), AllocError>
    ensures { OnOk result (out.new ≡ out.old ++ why_text (why_of why.now)) }
{
    match why {
        Why::Depot => push(out, b"depot"),
        Why::Source => push(out, b"source"),
        Why::Changed { .. } => push(out, b"changed"),
        Why::Absent { name } => push_named(out, b"damaged ", name),
        Why::Unreadable { name, reason: _ } => push_named(out, b"damaged ", name),
        Why::Ahead { name, id: _ } => push_named(out, b"damaged ", name),
        Why::NameTaken { name } => push_named(out, b"name-taken ", name),
        Why::Aborted { by } => push_count(out, b"aborted ", *by),
        Why::IdsSpent { next: _ } => push(out, b"spent"),
        Why::GenerationsSpent { number: _ } => push(out, b"spent"),
        Why::Target => push(out, b"target"),
        Why::Misprinted { name, .. } => push_named(out, b"damaged ", name),
        Why::Disagreeing { name, other: _ } => push_named(out, b"damaged ", name),
    }
}

/// Appends these words and a number.
pub fn push_count(out: &mut Bytes, words: &[u8], number: u64) -> Result<(), AllocError>
    ensures { OnOk result (out.new ≡ out.old ++ (words.now ++ decimal number)) }
{
    push(out, words)?;
    push_number(out, number)
}

fn push_in_use(out: &mut Bytes, uuid: Id) -> Result<(), AllocError>
    ensures { OnOk result (out.new ≡ out.old ++ (codes " refused name-in-use " ++ text_of_id uuid.number)) }
{
    push(out, b" refused name-in-use ")?;
    push_id(out, uuid)
}

/// Appends the name that stands at this place of a list, if one does.
fn push_nth(out: &mut Bytes, names: &[SnapName], place: u64) -> Result<(), AllocError>
    ensures { OnOk result (out.new ≡ out.old ++ get_or names.now place []) }
{
    match names.get(place as usize) {
        Some(name) => push(out, name.as_str().as_bytes()),
        None => Ok(()),
    }
}

/// Appends the snapshot's name that stands at this place of a command.
fn push_name_at(out: &mut Bytes, item: &Item, place: u64) -> Result<(), AllocError>
    ensures { OnOk result (out.new ≡ out.old ++ name_at item.now place) }
{
    match item {
        Item::Restore { name, place: _ } => push(out, name.as_str().as_bytes()),
        Item::Clone { source, .. } => push(out, source.as_str().as_bytes()),
        Item::Delete { names } => push_nth(out, names.as_slice(), place),
        _ => Ok(()),
    }
}

fn push_no_snapshot(out: &mut Bytes, item: &Item, place: u64) -> Result<(), AllocError>
    ensures { OnOk result (out.new ≡ out.old ++ (codes " refused no-snapshot " ++ name_at item.now place)) }
{
    push(out, b" refused no-snapshot ")?;
    push_name_at(out, item, place)
}

/// Appends the index's name that stands at this place of a command.
fn push_index_at(out: &mut Bytes, item: &Item, place: u64) -> Result<(), AllocError>
    ensures { OnOk result (out.new ≡ out.old ++ index_at item.now place) }
{
    let Item::Clone { indices, .. } = item else {
        return Ok(());
    };
    match indices.as_slice().get(place as usize) {
        Some(name) => push(out, name.as_str().as_bytes()),
        None => Ok(()),
    }
}

fn push_no_index(out: &mut Bytes, item: &Item, place: u64) -> Result<(), AllocError>
    ensures { OnOk result (out.new ≡ out.old ++ (codes " refused no-index " ++ index_at item.now place)) }
{
    push(out, b" refused no-index ")?;
    push_index_at(out, item, place)
}

pub fn push_refusal(out: &mut Bytes, item: &Item, refusal: &EntryRefusal) -> Result<(), AllocError>
    ensures { OnOk result (out.new ≡ out.old ++ refusal_text item.now (refusal_of refusal.now)) }
{
    match refusal {
        EntryRefusal::CleanupRunning { op } => push_count(out, b" refused cleanup-running ", *op),
        EntryRefusal::NameInUse { uuid } => push_in_use(out, *uuid),
        EntryRefusal::TooMany { limit } => push_count(out, b" refused too-many ", *limit),
        EntryRefusal::Deposed { entry: _ } => push(out, b" deposed"),
        EntryRefusal::Aborted { by } => push_count(out, b" aborted ", *by),
        EntryRefusal::StaleTerm { own: _, now: _ } => push(out, b" deposed"),
        EntryRefusal::GenerationsSpent { number: _ } => push(out, b" failed spent"),
        EntryRefusal::TermsSpent { number: _ } => push(out, b" failed spent"),
        EntryRefusal::IdsSpent { next: _ } => push(out, b" failed spent"),
        EntryRefusal::NameTaken { name } => push_named(out, b" failed name-taken ", name),
        EntryRefusal::DepotFault => push(out, b" failed depot"),
        EntryRefusal::NoSnapshot { place } => push_no_snapshot(out, item, *place),
        EntryRefusal::NoIndex { place } => push_no_index(out, item, *place),
        EntryRefusal::BeingDeleted { op } => push_count(out, b" refused being-deleted ", *op),
        EntryRefusal::CloneRunning { op } => push_count(out, b" refused clone-running ", *op),
        EntryRefusal::RestoreRunning { op } => push_count(out, b" refused restore-running ", *op),
        EntryRefusal::BusyOp { op } => push_count(out, b" refused busy op ", *op),
        EntryRefusal::BusyTicket { ticket } => push_count(out, b" refused busy ticket ", *ticket),
    }
}

fn push_state(out: &mut Bytes, state: u8) -> Result<(), AllocError>
    ensures { OnOk result (out.new ≡ out.old ++ state_text state) }
{
    if state == 1 {
        return push(out, b"success");
    }
    if state == 3 {
        return push(out, b"partial");
    }
    push(out, b"state ")?;
    push_number(out, u64::from(state))
}

pub fn push_snap(out: &mut Bytes, snap: &RootSnap) -> Result<(), AllocError>
    ensures { OnOk result (out.new ≡ out.old ++ snap_text (root_snap_of snap.now)) }
{
    push(out, b"- ")?;
    push(out, snap.name.as_str().as_bytes())?;
    push(out, b" ")?;
    push_id(out, snap.uuid)?;
    push(out, b" ")?;
    push_state(out, snap.state)?;
    push(out, b"\n")
}

/// Appends a word after a space.
fn push_word(out: &mut Bytes, word: &str) -> Result<(), AllocError>
    ensures { OnOk result (out.new ≡ out.old ++ (codes " " ++ word.now)) }
{
    push(out, b" ")?;
    push(out, word.as_bytes())
}

/// Appends the name that follows a command's verb, if one does.
fn push_name(out: &mut Bytes, item: &Item) -> Result<(), AllocError>
    ensures { OnOk result (out.new ≡ out.old ++ name_after item.now) }
{
    match item {
        Item::Snapshot { name, indices: _ } => push_word(out, name.as_str()),
        Item::Clone {
            source: _,
            name,
            indices: _,
        } => push_word(out, name.as_str()),
        Item::Restore { name, place: _ } => push_word(out, name.as_str()),
        _ => Ok(()),
    }
}

#[tactic(auto, unfolding(crate::specs::Lines::item_text))]
fn push_item(out: &mut Bytes, item: &Item) -> Result<(), AllocError>
    ensures { OnOk result (out.new ≡ out.old ++ item_text item.now) }
{
    push_word(out, item.verb())?;
    push_name(out, item)
}

/// Appends the line after the commands' lines, if there is one.
pub fn push_last(out: &mut Bytes, ending: Ending) -> Result<(), AllocError>
    ensures { OnOk result (out.new ≡ out.old ++ last_line (ending_of ending)) }
{
    match ending {
        Ending::SwapFailed => push(out, b"deposed\n"),
        Ending::BlobDamaged { name } => {
            push(out, b"damaged ")?;
            append_name(out, &name)?;
            push(out, b"\n")
        }
        Ending::NumbersSpent => push(out, b"numbers spent\n"),
        Ending::SomeRefused => Ok(()),
        Ending::AllOk => Ok(()),
    }
}

/// Appends the beginning of a command's line, with its number.
pub fn push_beginning(out: &mut Bytes, number: u64, item: &Item) -> Result<(), AllocError>
    ensures { OnOk result (out.new ≡ out.old ++ (decimal number ++ item_text item.now)) }
{
    push_number(out, number)?;
    push_item(out, item)
}
