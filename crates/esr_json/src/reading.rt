//! The parts of a JSON value, or why there is none.
ghost use Rattle.std.specs.Prelude.{◌≡◌, ◌≤ℤ◌, ℕ, List, map, IfOk};
ghost use Rattle.serde_json.specs.Data.{Data};
ghost use Rattle.serde_json.specs.View.{view};
ghost use Rattle.esr_json.specs.Steps.{seen, Gives};
ghost use Rattle.esr_json.specs.Named.{Rising};
ghost use Rattle.esr_json.specs.Access.{parsed, member_at, text_at, text_item, items_at, items_or_none, members_at, number_at, number_or, entry_view};

use crate::{Key, ReadRefusal, Reason};
use serde_json::{Map, Value};
use std::alloc::Global;

/// The value of a JSON text. Bytes that aren't UTF-8 and a value nested more than 127 deep are no JSON.
pub fn parse(alloc: Global, bytes: &[u8]) -> Result<Value, ReadRefusal>
    ensures { Gives view result (parsed bytes.now) }
{
    match Value::from_slice(alloc, bytes) {
        Ok(value) => Ok(value),
        Err(error) if error.is_memory() => Err(ReadRefusal::Memory),
        Err(_) => Err(ReadRefusal::Damaged { why: Reason::Json }),
    }
}

/// A member of an object. A value that is no object has none.
#[tactic(auto, unfolding(crate::specs::Access::member_at))]
pub fn member(value: &Value, key: Key) -> Result<&Value, Reason>
    ensures { seen (λ v. view v.now) result ≡ member_at key (view value.now) }
{
    value.get(key.text()).ok_or(Reason::Missing { key })
}

/// A member that is a text.
#[tactic(auto, unfolding(crate::specs::Access::text_at))]
pub fn text(value: &Value, key: Key) -> Result<&str, Reason>
    ensures { seen (λ s. s.now) result ≡ text_at key (view value.now) }
{
    member(value, key)?
        .as_str()
        .ok_or(Reason::WrongKind { key })
}

/// A member that is an object, with its own members in byte order of their names.
#[tactic(auto, using(crate::specs::Items::members_listed), unfolding(crate::specs::Access::members_at))]
pub fn members(value: &Value, key: Key) -> Result<&Map<String, Value>, Reason>
    ensures { seen (λ m. map entry_view m.now.entries) result ≡ members_at key (view value.now) }
{
    member(value, key)?
        .as_object()
        .ok_or(Reason::WrongKind { key })
}

/// A member that is a list.
#[tactic(auto, using(crate::specs::Items::items_listed), unfolding(crate::specs::Access::items_at))]
pub fn items(value: &Value, key: Key) -> Result<&[Value], Reason>
    ensures { seen (λ s. map view s.now) result ≡ items_at key (view value.now) }
{
    match member(value, key)?.as_array() {
        Some(items) => Ok(items.as_slice()),
        None => Err(Reason::WrongKind { key }),
    }
}

/// A member that is a whole number of `least` to `limit`. A number with a fraction, an exponent or
/// more than 64 bits and `-0` are no whole numbers.
#[tactic(auto, unfolding(crate::specs::Access::number_at))]
pub fn number(value: &Value, key: Key, least: i128, limit: i128) -> Result<i128, Reason>
    ensures exact { result ≡ number_at key least limit (view value.now) }
    ensures range { IfOk result (λ z. (least ≤ℤ z) × (z ≤ℤ limit)) }
{
    let Some(number) = member(value, key)?.as_number().and_then(|n| n.as_i128()) else {
        return Err(Reason::WrongKind { key });
    };
    if number < least {
        Err(Reason::OutOfRange { key, limit: least })
    } else if limit < number {
        Err(Reason::OutOfRange { key, limit })
    } else {
        Ok(number)
    }
}

/// A whole number as by `number`, or `absent` where there is no such member.
#[tactic(auto, unfolding(crate::specs::Access::number_or))]
pub fn number_or(
    value: &Value,
    key: Key,
    least: i128,
    limit: i128,
    absent: i128,
) -> Result<i128, Reason>
    requires { (least ≤ℤ absent) × (absent ≤ℤ limit) }
    ensures exact { result ≡ number_or key least limit absent (view value.now) }
    ensures range { IfOk result (λ z. (least ≤ℤ z) × (z ≤ℤ limit)) }
{
    if value.get(key.text()).is_none() {
        return Ok(absent);
    }
    number(value, key, least, limit)
}

/// A list as by `items`, or the empty one where there is no such member.
#[tactic(auto, unfolding(crate::specs::Access::items_or_none))]
pub fn items_or_none(value: &Value, key: Key) -> Result<&[Value], Reason>
    ensures { seen (λ s. map view s.now) result ≡ items_or_none key (view value.now) }
{
    if value.get(key.text()).is_none() {
        return Ok(&[]);
    }
    items(value, key)
}

/// An element that is a text, of the list that is the member `key`.
pub fn text_item(value: &Value, key: Key) -> Result<&str, Reason>
    ensures { seen (λ s. s.now) result ≡ text_item key (view value.now) }
{
    value.as_str().ok_or(Reason::WrongKind { key })
}

/// The members of what `parse` gives rise by name, so those of each object in it are met in order.
pub fn members_rise()
    ensures { (bytes : List ℕ) (d : Data) (key : Key) (es : List (List ℕ × Data))
        → parsed bytes ≡ Ok d → members_at key d ≡ Ok es → Rising (map (λ e. e.0) es) }
{}
