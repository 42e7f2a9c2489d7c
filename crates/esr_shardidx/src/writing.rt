//! Writing what a snapshot has of a shard, and a shard's index.
ghost use Rattle.std.specs.Prelude.{◌≡◌, ◌∷◌, [], codes, map, IfOk, IsUtf8, OnOk, Ok};
ghost use Rattle.json.specs.Token.{Token as Piece};
ghost use Rattle.serde_json.specs.Data.{array};
ghost use Rattle.serde_json.specs.View.{items_of};
ghost use Rattle.esr_names.specs.IdText.{id_text};
ghost use Rattle.esr_hash.specs.Digits.{digits_of};
ghost use Rattle.esr_shardidx.specs.Entries.{file_text, entry_data};
ghost use Rattle.esr_shardidx.specs.Snapshots.{shard_snap_data, shard_snap_text, shard_snap_from, IsShardSnap};
ghost use Rattle.esr_shardidx.specs.Indices.{file_data, list_data, shard_index_data, shard_index_text, shard_index_from, IsShardIndex};
ghost use Rattle.esr_shardidx.specs.Written.{tokens_of, number_member, text_member, entry_members, Adds};

use crate::{FileEntry, ShardIndex, ShardSnap, SnapList};
use esr_hash::{Print, print_text};
use esr_names::{Id, id_text};
use esr_seq::Bytes;
use json::Writer;
use std::alloc::{AllocError, Global};

/// A member that is a number.
fn put_number(out: &mut Writer, name: &str, value: u64) -> Result<(), AllocError>
    ensures { OnOk result (Adds out.old out.new (number_member name.now value)) }
{
    out.key(name)?;
    out.u64(value)?;
    Ok(())
}

/// A member that is a text.
fn put_text(out: &mut Writer, name: &str, value: &str) -> Result<(), AllocError>
    ensures { OnOk result (Adds out.old out.new (text_member name.now value.now)) }
{
    out.key(name)?;
    out.string(value)?;
    Ok(())
}

/// The name of a file.
pub fn file_name(file: Id) -> [u8; 24]
    ensures text { result ≡ file_text file }
    ensures utf8 { IsUtf8 result }
{
    let mut name = *b"__######################";
    name[2..].copy_from_slice(&id_text(file));
    name
}

fn put_file(out: &mut Writer, file: Id) -> Result<(), AllocError>
    ensures { OnOk result (Adds out.old out.new (Piece.string (file_text file) ∷ [])) }
{
    let name = file_name(file);
    let Ok(name) = str::from_utf8(&name) else {
        unreachable!();
    };
    out.string(name)?;
    Ok(())
}

fn put_uuid(out: &mut Writer, uuid: Id) -> Result<(), AllocError>
    ensures { OnOk result (Adds out.old out.new (text_member (codes "uuid") (id_text uuid.number))) }
{
    let text = id_text(uuid);
    let Ok(text) = str::from_utf8(&text) else {
        unreachable!();
    };
    put_text(out, "uuid", text)?;
    Ok(())
}

fn put_digest(out: &mut Writer, print: &Print) -> Result<(), AllocError>
    ensures { OnOk result (Adds out.old out.new (text_member (codes "sha256") (digits_of print.now.sha256))) }
{
    let digits = print_text(print);
    let Ok(digits) = str::from_utf8(&digits) else {
        unreachable!();
    };
    put_text(out, "sha256", digits)?;
    Ok(())
}

/// The members of an entry.
fn put_members(out: &mut Writer, entry: &FileEntry) -> Result<(), AllocError>
    ensures { OnOk result (Adds out.old out.new (entry_members entry.now)) }
{
    put_number(out, "length", entry.print.len)?;
    out.key("name")?;
    put_file(out, entry.name)?;
    put_number(out, "part_size", entry.part_size)?;
    put_text(out, "physical_name", entry.physical.as_str())?;
    put_digest(out, &entry.print)?;
    Ok(())
}

fn put_entry(out: &mut Writer, entry: &FileEntry) -> Result<(), AllocError>
    ensures { OnOk result (Adds out.old out.new (tokens_of (entry_data entry.now))) }
{
    out.begin_object()?;
    put_members(out, entry)?;
    out.end_object()?;
    Ok(())
}

fn put_entries(out: &mut Writer, entries: &[FileEntry]) -> Result<(), AllocError>
    ensures { OnOk result (Adds out.old out.new (tokens_of (array (items_of (map entry_data entries.now))))) }
{
    out.begin_array()?;
    for entry in entries {
        put_entry(out, entry)?;
    }
    out.end_array()?;
    Ok(())
}

fn put_files(out: &mut Writer, files: &[Id]) -> Result<(), AllocError>
    ensures { OnOk result (Adds out.old out.new (tokens_of (array (items_of (map file_data files.now))))) }
{
    out.begin_array()?;
    for file in files {
        put_file(out, *file)?;
    }
    out.end_array()?;
    Ok(())
}

fn put_list(out: &mut Writer, list: &SnapList) -> Result<(), AllocError>
    ensures { OnOk result (Adds out.old out.new (tokens_of (list_data list.now))) }
{
    out.begin_object()?;
    out.key("files")?;
    put_files(out, list.files.as_slice())?;
    put_uuid(out, list.uuid)?;
    out.end_object()?;
    Ok(())
}

fn put_lists(out: &mut Writer, lists: &[SnapList]) -> Result<(), AllocError>
    ensures { OnOk result (Adds out.old out.new (tokens_of (array (items_of (map list_data lists.now))))) }
{
    out.begin_array()?;
    for list in lists {
        put_list(out, list)?;
    }
    out.end_array()?;
    Ok(())
}

fn put_snap(out: &mut Writer, snap: &ShardSnap) -> Result<(), AllocError>
    ensures put { OnOk result (Adds out.old out.new (tokens_of (shard_snap_data snap.now))) }
    ensures whole { IsShardSnap snap.now }
{
    let files = snap.files();
    out.begin_object()?;
    out.key("files")?;
    put_entries(out, files)?;
    put_uuid(out, snap.uuid())?;
    out.end_object()?;
    Ok(())
}

fn put_index(out: &mut Writer, index: &ShardIndex) -> Result<(), AllocError>
    ensures put { OnOk result (Adds out.old out.new (tokens_of (shard_index_data index.now))) }
    ensures whole { IsShardIndex index.now }
{
    let files = index.files();
    out.begin_object()?;
    out.key("files")?;
    put_entries(out, files)?;
    out.key("snapshots")?;
    put_lists(out, index.snapshots())?;
    out.end_object()?;
    Ok(())
}

/// A writer of nothing yet.
fn writer(alloc: Global) -> Result<Writer, AllocError>
    ensures before { IfOk result (λ w. w.before ≡ []) }
    ensures tokens { IfOk result (λ w. w.tokens ≡ []) }
{
    Ok(Writer::new(Vec::with_capacity(alloc, 128)?))
}

/// The text of what a snapshot has of a shard, which reads back as it.
pub fn shard_snap_text(alloc: Global, snap: &ShardSnap) -> Result<Bytes, AllocError>
    ensures text { IfOk result (λ t. t ≡ shard_snap_text snap.now) }
    ensures reads { IfOk result (λ t. shard_snap_from t ≡ Ok snap.now) }
{
    let mut out = writer(alloc)?;
    put_snap(&mut out, snap)?;
    Ok(Bytes::from_vec(out.into_inner()))
}

/// The text of a shard's index, which reads back as it.
pub fn shard_index_text(alloc: Global, index: &ShardIndex) -> Result<Bytes, AllocError>
    ensures text { IfOk result (λ t. t ≡ shard_index_text index.now) }
    ensures reads { IfOk result (λ t. shard_index_from t ≡ Ok index.now) }
{
    let mut out = writer(alloc)?;
    put_index(&mut out, index)?;
    Ok(Bytes::from_vec(out.into_inner()))
}
