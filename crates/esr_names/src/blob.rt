//! The names of the blobs of a repository, and their texts.
ghost use Rattle.std.specs.Prelude.{◌≡◌, ◌+◌, ◌<◌, ◌≤◌, ◌++◌, take, length, ◌↔◌, List, ℕ, IsTrue, codes, decimal};
ghost use Rattle.esr_names.specs.Layout.{text_of_id, below, name_text, IsName, HasIds, IsId};

use crate::ids::{Id, id_text};
use itoa::Buffer;

/// A shard of an index.
#[derive(Clone, Copy, Debug, PartialEq, Eq, PartialOrd, Ord)]
pub struct ShardId {
    pub index: Id,
    pub number: u32,
}

/// The name of a blob.
#[derive(Clone, Copy, Debug, PartialEq, Eq, PartialOrd, Ord)]
pub enum BlobName {
    Root(u64),
    Latest,
    Snap(Id),
    Meta(Id),
    IndexMeta(Id, Id),
    ShardSnap(ShardId, Id),
    ShardIndex(ShardId, Id),
    Whole(ShardId, Id),
    Part(ShardId, Id, u64),
    TestMaster(Id),
    TestNode(Id, u32),
}

/// Writes bytes at a place, and answers where they end.
fn put(out: &mut [u8], at: usize, bytes: &[u8]) -> usize
    requires { at + length bytes.now ≤ length out.old }
    ensures end { result ≡ at + length bytes.now }
    ensures text { take result out.new ≡ take at out.old ++ bytes.now }
{
    let end = at + bytes.len();
    out[at..end].copy_from_slice(bytes);
    end
}

/// Writes a text and the text of an id.
fn put_id(out: &mut [u8], at: usize, text: &[u8], id: Id) -> usize
    requires { at + length text.now + 22 ≤ length out.old }
    ensures end { result ≡ at + length text.now + 22 }
    ensures text { take result out.new ≡ (take at out.old ++ text.now) ++ text_of_id id }
    ensures range { IsId id }
{
    let at = put(out, at, text);
    put(out, at, &id_text(id))
}

fn put_number(out: &mut [u8], at: usize, n: u64) -> usize
    requires { at + 20 ≤ length out.old }
    ensures end { result ≤ at + 20 }
    ensures text { take result out.new ≡ take at out.old ++ decimal n }
{
    let mut digits = Buffer::new();
    put(out, at, digits.format(n).as_bytes())
}

/// Writes the text of a shard's folder, which the texts of names below it begin with.
fn put_folder(out: &mut [u8], shard: &ShardId) -> usize
    requires { 52 ≤ length out.old }
    ensures end { result ≤ 52 }
    ensures text { (rest : List ℕ) → take result out.new ++ rest ≡ below shard.now rest }
    ensures range { IsId shard.now.index }
{
    let at = put_id(out, 0, b"indices/", shard.index);
    let at = put(out, at, b"/");
    let at = put_number(out, at, u64::from(shard.number));
    put(out, at, b"/")
}

/// Writes a text, the text of an id, and `.dat`.
fn put_dat(out: &mut [u8], at: usize, text: &[u8], id: Id) -> usize
    requires { at + length text.now + 26 ≤ length out.old }
    ensures end { result ≡ at + length text.now + 26 }
    ensures text { take result out.new ≡ (take at out.old ++ text.now) ++ (text_of_id id ++ codes ".dat") }
    ensures range { IsId id }
{
    let at = put_id(out, at, text, id);
    put(out, at, b".dat")
}

/// Writes the text of a name, and answers how many bytes it has.
#[tactic(auto, unfolding(crate::specs::Layout::name_text, crate::specs::Layout::HasIds))]
pub fn print_name(name: &BlobName, out: &mut [u8; 128]) -> usize
    ensures short { result < 128 }
    ensures text { take result out.new ≡ name_text name.now }
    ensures ids { HasIds name.now }
{
    match name {
        BlobName::Root(n) => {
            let at = put(out, 0, b"index-");
            put_number(out, at, *n)
        }
        BlobName::Latest => put(out, 0, b"index.latest"),
        BlobName::Snap(snap) => put_dat(out, 0, b"snap-", *snap),
        BlobName::Meta(snap) => put_dat(out, 0, b"meta-", *snap),
        BlobName::IndexMeta(index, snap) => {
            let at = put_id(out, 0, b"indices/", *index);
            put_dat(out, at, b"/meta-", *snap)
        }
        BlobName::ShardSnap(shard, snap) => {
            let at = put_folder(out, shard);
            put_dat(out, at, b"snap-", *snap)
        }
        BlobName::ShardIndex(shard, generation) => {
            let at = put_folder(out, shard);
            put_id(out, at, b"index-", *generation)
        }
        BlobName::Whole(shard, file) => {
            let at = put_folder(out, shard);
            put_id(out, at, b"__", *file)
        }
        BlobName::Part(shard, file, part) => {
            let at = put_folder(out, shard);
            let at = put_id(out, at, b"__", *file);
            let at = put(out, at, b".part");
            put_number(out, at, *part)
        }
        BlobName::TestMaster(test) => {
            let at = put_id(out, 0, b"tests-", *test);
            put(out, at, b"/master.dat")
        }
        BlobName::TestNode(test, worker) => {
            let at = put_id(out, 0, b"tests-", *test);
            let at = put(out, at, b"/data-w");
            let at = put_number(out, at, u64::from(*worker));
            put(out, at, b".dat")
        }
    }
}

/// Whether the numbers of a name are those of the layout.
#[tactic(auto, unfolding(crate::specs::Layout::IsName))]
pub fn is_name(name: &BlobName) -> bool
    ensures { IsTrue result ↔ IsName name.now }
{
    match name {
        BlobName::Root(n) => *n < 1 << 63,
        BlobName::ShardSnap(shard, _)
        | BlobName::ShardIndex(shard, _)
        | BlobName::Whole(shard, _) => shard.number < 1024,
        BlobName::Part(shard, _, part) => shard.number < 1024 && *part < 1 << 61,
        BlobName::TestNode(_, worker) => *worker < 64,
        _ => true,
    }
}
