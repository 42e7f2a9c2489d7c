//! What the ticket of a cleanup took away.
ghost use Rattle.std.specs.Prelude.{◌≡◌, ◌-◌, ◌^◌, ◌||◌, min, map, option_map, IfOk, OnOk};
ghost use Rattle.esr_model.specs.Values.{Bytes as Text};
ghost use Rattle.esr_formats.specs.Names.{name_of};
ghost use Rattle.esr_desk.specs.Listing.{blob_size_of, page_of};
ghost use Rattle.esr_desk.specs.Entries.{unit_of};
ghost use Rattle.esr_report.specs.Cleaned.{is_cleanup, cleanup_by, is_cleanup_ticket, gone_at, page_at, has_text, is_gone, size_where, sizes_where, bytes_gone};
ghost use Rattle.esr_report.specs.Replies.{cleaned_by};
ghost use Rattle.esr_report.specs.Ends.{reply_of_end, holds_text};

use crate::tickets::End;
use esr_depot::Listed;
use esr_desk::{Answer, Entry, Given, Prune, Step};
use esr_formats::append_name;
use esr_names::BlobName;
use esr_seq::Bytes;
use std::alloc::{AllocError, Global};
use std::collections::BTreeSet;

fn is_cleanup(unit: &Given) -> bool
    ensures { result ≡ is_cleanup (unit_of unit.now) }
{
    matches!(unit, Given::Cleanup)
}

/// A take gave a cleanup to this ticket.
fn cleanup_by(entry: &Entry, ticket: u64) -> bool
    ensures { result ≡ cleanup_by entry.now.reply ticket }
{
    match &entry.answer {
        Answer::Gave {
            ticket: given,
            op: _,
            unit,
        } => *given == ticket && is_cleanup(unit),
        _ => false,
    }
}

/// One of these entries gave a cleanup to the ticket.
pub fn is_cleanup_ticket(entries: &[Entry], ticket: u64) -> bool
    ensures { result ≡ is_cleanup_ticket entries.now ticket }
{
    for entry in entries {
        if cleanup_by(entry, ticket) {
            return true;
        }
    }
    false
}

/// The names that an entry of the ticket took away.
fn gone_at(entry: &Entry, ticket: u64) -> &[BlobName]
    ensures { map name_of result.now ≡ gone_at ticket entry.now }
{
    if entry.who != ticket {
        return &[];
    }
    match (&entry.step, &entry.answer) {
        (
            Step::Prune {
                prune: Prune::Remove { names },
            },
            Answer::Removed,
        ) => names.as_slice(),
        _ => &[],
    }
}

/// The page of the listing that an entry of the ticket was told.
fn page_at(entry: &Entry, ticket: u64) -> &[Listed]
    ensures { page_of result.now ≡ page_at ticket entry.now }
{
    if entry.who != ticket {
        return &[];
    }
    match (&entry.step, &entry.answer) {
        (Step::List { .. }, Answer::Listed { page }) => page.as_slice(),
        _ => &[],
    }
}

/// Adds the texts of these names.
fn insert_texts(
    texts: &mut BTreeSet<Vec<u8>>,
    alloc: Global,
    names: &[BlobName],
) -> Result<(), AllocError>
    ensures { OnOk result ((text : Text) → holds_text texts.new text ≡ (holds_text texts.old text || has_text (map name_of names.now) text)) }
{
    for name in names {
        let mut text = Bytes::new(alloc);
        append_name(&mut text, name)?;
        texts.insert(text.into_vec())?;
    }
    Ok(())
}

/// The texts of the names that the ticket took away.
fn texts_gone(
    alloc: Global,
    entries: &[Entry],
    ticket: u64,
) -> Result<BTreeSet<Vec<u8>>, AllocError>
    ensures { IfOk result (λ texts. holds_text texts ≡ is_gone entries.now ticket) }
{
    let mut texts = BTreeSet::new(alloc);
    for entry in entries {
        insert_texts(&mut texts, alloc, gone_at(entry, ticket))?;
    }
    Ok(texts)
}

/// The length of a listed blob, where it has one of the texts.
fn size_where(texts: &BTreeSet<Vec<u8>>, listed: &Listed) -> u64
    ensures { result ≡ size_where (holds_text texts.now) (blob_size_of listed.now) }
{
    if texts.contains(listed.name.as_str().as_bytes()) {
        listed.length
    } else {
        0
    }
}

/// The lengths of those of the listed blobs that have one of the texts; the sum stops at 2^64 - 1.
fn page_sizes(texts: &BTreeSet<Vec<u8>>, page: &[Listed]) -> u64
    ensures { result ≡ min (sizes_where (holds_text texts.now) (page_of page.now)) (2 ^ 64 - 1) }
{
    let mut sum: u64 = 0;
    for listed in page {
        sum = sum.saturating_add(size_where(texts, listed));
    }
    sum
}

/// The listed lengths of the blobs that the ticket took away, which have these texts.
fn bytes_gone(texts: &BTreeSet<Vec<u8>>, entries: &[Entry], ticket: u64) -> u64
    requires { holds_text texts.now ≡ is_gone entries.now ticket }
    ensures { result ≡ bytes_gone entries.now ticket }
{
    let mut bytes: u64 = 0;
    for entry in entries {
        bytes = bytes.saturating_add(page_sizes(texts, page_at(entry, ticket)));
    }
    bytes
}

/// How the drop of a ticket's op ends it: a cleanup has come to its end, or the drop is of another op.
pub fn cleaned_by(alloc: Global, entries: &[Entry], ticket: u64) -> Result<Option<End>, AllocError>
    ensures { IfOk result (λ end. option_map reply_of_end end ≡ cleaned_by entries.now ticket (is_cleanup_ticket entries.now ticket)) }
{
    if !is_cleanup_ticket(entries, ticket) {
        return Ok(None);
    }
    let texts = texts_gone(alloc, entries, ticket)?;
    let blobs = texts.len() as u64;
    let bytes = bytes_gone(&texts, entries, ticket);
    Ok(Some(End::Cleaned { blobs, bytes }))
}
