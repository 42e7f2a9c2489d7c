//! Prints and the texts of their digests.
ghost use Rattle.std.specs.Prelude.{◌≡◌, Some, IfSome, IsUtf8, length};
ghost use Rattle.esr_hash.specs.Digits.{digits_of, lower_value, lower_bytes, IsPrint, read_print};

/// What is known of a file: its length in bytes, and the SHA-256 digest of its bytes.
#[derive(Clone, Copy, Debug, PartialEq, Eq, PartialOrd, Ord)]
pub struct Print {
    pub len: u64,
    pub sha256: [u8; 32],
}

/// The digest as 64 lower-case hexadecimal digits.
pub fn print_text(print: &Print) -> [u8; 64]
    ensures digits { result ≡ digits_of print.now.sha256 }
    ensures utf8 { IsUtf8 result }
{
    let mut digits = [0; 64];
    let Ok(()) = hex::encode_to_slice(print.sha256, &mut digits) else {
        unreachable!();
    };
    digits
}

/// The value of a lower-case digit. Any other byte has the value of some digit too.
fn digit_value(digit: u8) -> u8
    ensures { result ≡ lower_value digit }
{
    (digit % 16 + 9 * (digit / 64)) % 16
}

/// The bytes with these digits. Texts of other bytes than lower-case digits have some bytes too.
fn bytes_of(digits: &[u8]) -> [u8; 32]
    requires { length digits.now ≡ 64 }
    ensures { result ≡ lower_bytes digits.now }
{
    let mut bytes = [0; 32];
    for place in 0..32 {
        bytes[place] = digit_value(digits[2 * place]) * 16 + digit_value(digits[2 * place + 1]);
    }
    bytes
}

/// The print of a file of `len` bytes whose digest has these digits. None where they aren't 64
/// lower-case hexadecimal digits.
pub fn print_read(len: u64, digits: &[u8]) -> Option<Print>
    ensures exact { result ≡ read_print len digits.now }
    ensures found { IfSome result (λ p. IsPrint p × (p.len ≡ len) × (digits_of p.sha256 ≡ digits.now)) }
{
    if digits.len() != 64 {
        return None;
    }
    let sha256 = bytes_of(digits);
    let print = Print { len, sha256 };
    // Only lower-case digits are those of their bytes.
    if print_text(&print).as_slice() == digits {
        Some(print)
    } else {
        None
    }
}

/// A print is read back from its length and its digits, and two digests never have the same digits.
pub fn digits_tell_digests()
    ensures back { (p : Print) → IsPrint p → read_print p.len (digits_of p.sha256) ≡ Some p }
    ensures apart { (p q : Print) → IsPrint p → IsPrint q
        → digits_of p.sha256 ≡ digits_of q.sha256 → p.sha256 ≡ q.sha256 }
{}
