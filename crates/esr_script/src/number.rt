//! Numbers in plain decimal.
ghost use Rattle.std.specs.Prelude.{◌≡◌, ◌≤◌, IfSome};
ghost use Rattle.esr_script.specs.Numbers.{number_in, number_up_to, has_leading_zero};

#[tactic(auto, unfolding(crate::specs::Numbers::number_up_to))]
fn number_up_to(most: u64, digits: &[u8]) -> Option<u64>
    ensures exact { result ≡ number_up_to most 0 digits.now }
    ensures bound { IfSome result (λ n. n ≤ most) }
{
    let mut number: u64 = 0;
    for c in digits {
        if !c.is_ascii_digit() {
            return None;
        }
        number = number.checked_mul(10)?.checked_add(u64::from(*c - b'0'))?;
        if number > most {
            return None;
        }
    }
    Some(number)
}

fn has_leading_zero(digits: &[u8]) -> bool
    ensures { result ≡ has_leading_zero digits.now }
{
    match digits {
        [first, _, ..] => *first == b'0',
        _ => false,
    }
}

/// The number from `least` to `most` that a text spells in decimal, without sign or leading zero.
pub(crate) fn number_in(least: u64, most: u64, text: &str) -> Option<u64>
    ensures exact { result ≡ number_in least most text.now }
    ensures least { IfSome result (λ n. least ≤ n) }
    ensures bound { IfSome result (λ n. n ≤ most) }
{
    let digits = text.as_bytes();
    if digits.is_empty() || has_leading_zero(digits) {
        return None;
    }
    let number = number_up_to(most, digits)?;
    if number < least {
        return None;
    }
    Some(number)
}
