//! Ids of 128 bits, and their texts.
ghost use Rattle.std.specs.Prelude.{◌≡◌, ◌+◌, ◌*◌, ◌^◌, ◌<◌, ◌/◌, ◌%◌, ℕ, Some, IfSome, codes};
ghost use Rattle.std.specs.Str.{IsUtf8};
ghost use Rattle.esr_names.specs.IdText.{id_text, read_id};

use base64::engine::general_purpose::URL_SAFE_NO_PAD;
use uuid::Uuid;

/// The number of bytes in the text of an id.
pub const ID_TEXT_LEN: usize = 22;

/// A term and a counter in one number, by which ids are ordered.
#[derive(Clone, Copy, Debug, PartialEq, Eq, PartialOrd, Ord)]
pub struct Id {
    pub number: u128,
}

impl Id {
    /// The id `term * 2^64 + counter`.
    pub fn new(term: u64, counter: u64) -> Id
        ensures { result.number ≡ term * 2 ^ 64 + counter }
    {
        Id {
            number: ((term as u128) << 64) + counter as u128,
        }
    }

    /// The upper 64 bits.
    pub fn term(self) -> u64
        ensures { result ≡ self.number / 2 ^ 64 }
    {
        (self.number >> 64) as u64
    }

    /// The lower 64 bits.
    pub fn counter(self) -> u64
        ensures { result ≡ self.number % 2 ^ 64 }
    {
        (self.number & 0xffff_ffff_ffff_ffff) as u64
    }
}

/// The text of an id: 22 bytes of unpadded URL-safe base64.
pub fn id_text(id: Id) -> [u8; 22]
    ensures text { result ≡ id_text id.number }
    ensures utf8 { IsUtf8 result }
{
    let mut text = [0; 22];
    let _ = URL_SAFE_NO_PAD.encode_slice(Uuid::from_u128(id.number).as_bytes(), &mut text);
    text
}

/// The id whose text the bytes are. Padding, and low bits that no id's text has, are refused.
pub fn id_read(bytes: &[u8]) -> Option<Id>
    ensures found { IfSome result (λ id. bytes.now ≡ id_text id.number) }
    ensures only { (n : ℕ) → n < 2 ^ 128 → bytes.now ≡ id_text n
        → result ≡ Some (record { number = n }) }
    ensures exact { result ≡ read_id bytes.now }
{
    let mut decoded = [0; 16];
    match URL_SAFE_NO_PAD.decode_slice(bytes, &mut decoded) {
        Ok(16) => Some(Id {
            number: Uuid::from_bytes(decoded).as_u128(),
        }),
        _ => None,
    }
}

/// The text of an id is read as it.
pub fn id_reads_back()
    ensures { (n : ℕ) → n < 2 ^ 128 → read_id (id_text n) ≡ Some (record { number = n }) }
{}

/// The texts of term 1, counters 1 and 8, and of term 3, counter 0, computed from the definition.
pub fn worked_texts()
    ensures first { id_text (2 ^ 64 + 1) ≡ codes "AAAAAAAAAAEAAAAAAAAAAQ" }
    ensures eighth { id_text (2 ^ 64 + 8) ≡ codes "AAAAAAAAAAEAAAAAAAAACA" }
    ensures third_term { id_text (3 * 2 ^ 64) ≡ codes "AAAAAAAAAAMAAAAAAAAAAA" }
{}
