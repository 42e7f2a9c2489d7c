//! Names of snapshots and of indices, and the rules for them.
ghost use Rattle.std.specs.Prelude.{◌≡◌, None, Some, List, IfOk, IfErr, OnOk, refl, bytes_eq};
ghost use Rattle.std.specs.Ordering.{nat_cmp};
ghost use Rattle.std.specs.Cmp.{partial_equiv_from_equiv};
ghost use Rattle.std.specs.Cmp.Lexicographic.{slice_cmp, nat_list_eq_equiv, nat_list_cmp_total, texts_ties, texts_po};
ghost use Rattle.std.specs.Str.{IsUtf8};
ghost use Rattle.esr_names.specs.NameRule.{byte_rule, name_fault, snap_name_fault, index_name_fault, Explains};

use esr_seq::TryClone;
use std::alloc::{AllocError, Global};
use std::cmp::Ordering;
use std::marker::Model;
use thiserror::Error;

/// A rule that a name may break.
#[derive(Clone, Copy, Debug)]
pub enum Rule {
    /// The name has no bytes.
    Empty,
    /// The name has more than 255 bytes.
    TooLong,
    /// Its first byte may not begin a name.
    First,
    /// A byte that is not from 33 to 126.
    Outside,
    /// An upper-case letter.
    Upper,
    /// One of the bytes `,` `#` `\` `/` `*` `?` `"` `<` `>` `|`.
    Forbidden,
    /// The name is `.` or `..`.
    Dots,
}

/// The first rule that a name breaks, and the place of the byte in it.
#[derive(Clone, Copy, Debug)]
pub struct BadName {
    pub place: usize,
    pub rule: Rule,
}

/// Why there is no name.
#[derive(Clone, Copy, Debug, Error)]
pub enum NameRefusal {
    #[error("out of memory")]
    Memory,
    #[error("the name breaks the rule {:?} at byte {}", .0.rule, .0.place)]
    Bad(BadName),
}

fn byte_rule(c: u8) -> Option<Rule>
    ensures { result ≡ byte_rule c }
{
    if !(33..=126).contains(&c) {
        Some(Rule::Outside)
    } else if c.is_ascii_uppercase() {
        Some(Rule::Upper)
    } else if b",#\\/*?\"<>|".contains(&c) {
        Some(Rule::Forbidden)
    } else {
        None
    }
}

/// The first rule that a name breaks, where it may not begin with some bytes.
#[tactic(auto, unfolding(crate::specs::NameRule::name_fault))]
fn name_fault(firsts: &[u8], bytes: &[u8]) -> Option<BadName>
    ensures { result ≡ name_fault firsts.now bytes.now }
{
    if bytes.is_empty() {
        return Some(BadName {
            place: 0,
            rule: Rule::Empty,
        });
    }
    if bytes.len() > 255 {
        return Some(BadName {
            place: 255,
            rule: Rule::TooLong,
        });
    }
    if firsts.contains(&bytes[0]) {
        return Some(BadName {
            place: 0,
            rule: Rule::First,
        });
    }
    for (place, c) in bytes.iter().enumerate() {
        if let Some(rule) = byte_rule(*c) {
            return Some(BadName { place, rule });
        }
    }
    None
}

fn index_name_fault(bytes: &[u8]) -> Option<BadName>
    ensures { result ≡ index_name_fault bytes.now }
{
    if let Some(bad) = name_fault(b"_-+", bytes) {
        Some(bad)
    } else if bytes == b".".as_slice() || bytes == b"..".as_slice() {
        Some(BadName {
            place: 0,
            rule: Rule::Dots,
        })
    } else {
        None
    }
}

/// The name of a snapshot, which a contract sees as its bytes.
#[derive(Debug)]
pub struct SnapName {
    text: String,
}

impl Drop for SnapName {
    // Not derived: each crate above would prove a derived one again.
    fn drop(self) {
        let SnapName { text: _text } = self;
    }
}

impl Model for SnapName {
    ghost use Rattle.std.specs.Prelude.{◌≡◌, List, ℕ, None, string_bytes};

    ghost Value = { List ℕ };

    ghost use Rattle.esr_names.specs.NameRule.{snap_name_fault};

    ghost view = { λ n. string_bytes n.text };

    ghost invariant = { λ n. snap_name_fault (string_bytes n.text) ≡ None };
}

impl SnapName {
    /// The name with this text. `Bad` tells the first rule that the text breaks; `Memory` comes
    /// for a good text alone.
    pub fn new(alloc: Global, text: &str) -> Result<SnapName, NameRefusal>
        ensures ok { IfOk result (λ n. n ≡ text.now) }
        ensures good { OnOk result (snap_name_fault text.now ≡ None) }
        ensures err { IfErr result (λ e. Explains e (snap_name_fault text.now)) }
    {
        if let Some(bad) = name_fault(b"_", text.as_bytes()) {
            return Err(NameRefusal::Bad(bad));
        }
        match String::from_str(alloc, text) {
            Ok(text) => Ok(SnapName { text }),
            Err(_) => Err(NameRefusal::Memory),
        }
    }

    pub fn as_str(&self) -> &str
        ensures text { result.now ≡ self.now }
        ensures rule { snap_name_fault self.now ≡ None }
        ensures utf8 { IsUtf8 self.now }
    {
        self.text.as_str()
    }
}

impl TryClone for SnapName {
    fn try_clone(&self, alloc: Global) -> Result<SnapName, AllocError> {
        let text = String::from_str(alloc, self.text.as_str())?;
        Ok(SnapName { text })
    }
}

impl PartialEq for SnapName {
    ghost eq = { bytes_eq };

    ghost laws = { partial_equiv_from_equiv nat_list_eq_equiv };

    fn eq(&self, other: &SnapName) -> bool {
        self.as_str() == other.as_str()
    }
}

impl Eq for SnapName {
    ghost laws = { nat_list_eq_equiv };
}

impl PartialOrd for SnapName {
    ghost partial_cmp = { λ a b. Some (slice_cmp nat_cmp a b) };

    ghost laws = { texts_po };

    fn partial_cmp(&self, other: &SnapName) -> Option<Ordering> {
        Some(self.cmp(other))
    }
}

impl Ord for SnapName {
    ghost cmp = { slice_cmp nat_cmp };

    ghost total = { nat_list_cmp_total };

    ghost matches_partial_cmp = { λ a b. refl };

    ghost matches_eq = { texts_ties };

    fn cmp(&self, other: &SnapName) -> Ordering {
        self.as_str().cmp(other.as_str())
    }
}

/// The name of an index, which a contract sees as its bytes.
#[derive(Debug)]
pub struct IndexName {
    text: String,
}

impl Drop for IndexName {
    // Not derived: each crate above would prove a derived one again.
    fn drop(self) {
        let IndexName { text: _text } = self;
    }
}

impl Model for IndexName {
    ghost use Rattle.std.specs.Prelude.{◌≡◌, List, ℕ, None, string_bytes};

    ghost Value = { List ℕ };

    ghost use Rattle.esr_names.specs.NameRule.{index_name_fault};

    ghost view = { λ n. string_bytes n.text };

    ghost invariant = { λ n. index_name_fault (string_bytes n.text) ≡ None };
}

impl IndexName {
    /// The name with this text. `Bad` tells the first rule that the text breaks; `Memory` comes
    /// for a good text alone.
    pub fn new(alloc: Global, text: &str) -> Result<IndexName, NameRefusal>
        ensures ok { IfOk result (λ n. n ≡ text.now) }
        ensures good { OnOk result (index_name_fault text.now ≡ None) }
        ensures err { IfErr result (λ e. Explains e (index_name_fault text.now)) }
    {
        if let Some(bad) = index_name_fault(text.as_bytes()) {
            return Err(NameRefusal::Bad(bad));
        }
        match String::from_str(alloc, text) {
            Ok(text) => Ok(IndexName { text }),
            Err(_) => Err(NameRefusal::Memory),
        }
    }

    pub fn as_str(&self) -> &str
        ensures text { result.now ≡ self.now }
        ensures rule { index_name_fault self.now ≡ None }
        ensures utf8 { IsUtf8 self.now }
    {
        self.text.as_str()
    }
}

impl TryClone for IndexName {
    fn try_clone(&self, alloc: Global) -> Result<IndexName, AllocError> {
        let text = String::from_str(alloc, self.text.as_str())?;
        Ok(IndexName { text })
    }
}

impl PartialEq for IndexName {
    ghost eq = { bytes_eq };

    ghost laws = { partial_equiv_from_equiv nat_list_eq_equiv };

    fn eq(&self, other: &IndexName) -> bool {
        self.as_str() == other.as_str()
    }
}

impl Eq for IndexName {
    ghost laws = { nat_list_eq_equiv };
}

impl PartialOrd for IndexName {
    ghost partial_cmp = { λ a b. Some (slice_cmp nat_cmp a b) };

    ghost laws = { texts_po };

    fn partial_cmp(&self, other: &IndexName) -> Option<Ordering> {
        Some(self.cmp(other))
    }
}

impl Ord for IndexName {
    ghost cmp = { slice_cmp nat_cmp };

    ghost total = { nat_list_cmp_total };

    ghost matches_partial_cmp = { λ a b. refl };

    ghost matches_eq = { texts_ties };

    fn cmp(&self, other: &IndexName) -> Ordering {
        self.as_str().cmp(other.as_str())
    }
}
