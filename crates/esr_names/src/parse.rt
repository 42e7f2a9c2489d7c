//! Reading the texts of blob names.
ghost use Rattle.std.specs.Prelude.{◌≡◌, ◌+◌, ◌*◌, ◌^◌, ◌<◌, IfSome, Some, None, nat_lt, if◌then◌else◌, option_map};
ghost use Rattle.esr_names.specs.Reading.{strip, number_at, number_from, id_at, shard_name, index_name, test_name, name_of};
ghost use Rattle.esr_names.specs.Layout.{name_text, IsName, HasIds};

use crate::blob::{BlobName, ShardId, is_name, print_name};
use crate::ids::{Id, id_read};

/// The rest of the bytes after a prefix.
fn strip<'a>(prefix: &[u8], bytes: &'a [u8]) -> Option<&'a [u8]>
    ensures { option_map (λ rest. rest.now) result ≡ strip prefix.now bytes.now }
{
    bytes.strip_prefix(prefix)
}

/// The number with one more digit, unless it is too large.
fn with_digit(n: u64, digit: u8) -> Option<u64>
    requires { digit < 10 }
    ensures { result ≡ (if nat_lt (n * 10 + digit) (2 ^ 64) then Some (n * 10 + digit) else None) }
{
    n.checked_mul(10)?.checked_add(u64::from(digit))
}

/// A number and the rest of the bytes.
#[tactic(auto, unfolding(crate::specs::Reading::number_from))]
fn number_at(bytes: &[u8]) -> Option<(u64, &[u8])>
    ensures { option_map (λ p. (p.0, p.1.now)) result ≡ number_at bytes.now }
{
    let mut n: u64 = 0;
    let mut rest = bytes;
    while let [c, more @ ..] = rest {
        if *c < b'0' || b'9' < *c {
            return Some((n, rest));
        }
        n = with_digit(n, *c - b'0')?;
        rest = more;
    }
    Some((n, rest))
}

/// An id and the rest of the bytes.
#[tactic(auto, unfolding(crate::specs::Reading::id_at))]
fn id_at(bytes: &[u8]) -> Option<(Id, &[u8])>
    ensures { option_map (λ p. (p.0, p.1.now)) result ≡ id_at bytes.now }
{
    if bytes.len() < 22 {
        return None;
    }
    let id = id_read(&bytes[..22])?;
    Some((id, &bytes[22..]))
}

/// What the name of a shard's blob may be, after the folder.
#[tactic(auto, unfolding(crate::specs::Reading::shard_name))]
fn shard_name(shard: ShardId, bytes: &[u8]) -> Option<BlobName>
    ensures { result ≡ shard_name shard bytes.now }
{
    if let Some(rest) = strip(b"snap-", bytes) {
        return Some(BlobName::ShardSnap(shard, id_at(rest)?.0));
    }
    if let Some(rest) = strip(b"index-", bytes) {
        return Some(BlobName::ShardIndex(shard, id_at(rest)?.0));
    }
    let (file, rest) = id_at(strip(b"__", bytes)?)?;
    match strip(b".part", rest) {
        Some(digits) => Some(BlobName::Part(shard, file, number_at(digits)?.0)),
        None => Some(BlobName::Whole(shard, file)),
    }
}

#[tactic(auto, unfolding(crate::specs::Reading::index_name))]
fn index_name(bytes: &[u8]) -> Option<BlobName>
    ensures { result ≡ index_name bytes.now }
{
    let (index, rest) = id_at(bytes)?;
    let rest = strip(b"/", rest)?;
    let (number, last) = number_at(rest)?;
    match strip(b"/", last) {
        Some(last) if number < 1024 => shard_name(
            ShardId {
                index,
                number: number as u32,
            },
            last,
        ),
        Some(_) => None,
        None => Some(BlobName::IndexMeta(index, id_at(strip(b"meta-", rest)?)?.0)),
    }
}

#[tactic(auto, unfolding(crate::specs::Reading::test_name))]
fn test_name(bytes: &[u8]) -> Option<BlobName>
    ensures { result ≡ test_name bytes.now }
{
    let (test, rest) = id_at(bytes)?;
    let Some(digits) = strip(b"/data-w", rest) else {
        return Some(BlobName::TestMaster(test));
    };
    let worker = number_at(digits)?.0;
    if worker < 64 {
        Some(BlobName::TestNode(test, worker as u32))
    } else {
        None
    }
}

/// The one name that the bytes may be the text of, by their front.
#[tactic(auto, unfolding(crate::specs::Reading::name_of))]
fn name_of(bytes: &[u8]) -> Option<BlobName>
    ensures { result ≡ name_of bytes.now }
{
    if let Some(rest) = strip(b"index-", bytes) {
        Some(BlobName::Root(number_at(rest)?.0))
    } else if let Some(rest) = strip(b"snap-", bytes) {
        Some(BlobName::Snap(id_at(rest)?.0))
    } else if let Some(rest) = strip(b"meta-", bytes) {
        Some(BlobName::Meta(id_at(rest)?.0))
    } else if let Some(rest) = strip(b"tests-", bytes) {
        test_name(rest)
    } else if let Some(rest) = strip(b"indices/", bytes) {
        index_name(rest)
    } else {
        Some(BlobName::Latest)
    }
}

/// The name that has this text.
pub fn parse_name(bytes: &[u8]) -> Option<BlobName>
    ensures found { IfSome result (λ name. HasIds name × IsName name × (bytes.now ≡ name_text name)) }
    ensures only { (name : BlobName) → HasIds name → IsName name → bytes.now ≡ name_text name
        → result ≡ Some name }
{
    let name = name_of(bytes)?;
    let mut text = [0; 128];
    let len = print_name(&name, &mut text);
    if is_name(&name) && &text[..len] == bytes {
        Some(name)
    } else {
        None
    }
}

/// No text is that of two names.
pub fn one_text()
    ensures { (a b : BlobName) → HasIds a → IsName a → HasIds b → IsName b
        → name_text a ≡ name_text b → a ≡ b }
{}
