//! Reading the parts of JSON values, with the first reason where one is refused, and writing them.
#![tactic(auto)]

mod key;
mod object;
mod reading;
mod refusal;
mod writing;

pub use key::Key;
pub use object::ObjectBuilder;
pub use reading::{
    items, items_or_none, member, members, members_rise, number, number_or, parse, text, text_item,
};
pub use refusal::{ReadRefusal, Reason};
pub use writing::{text_value, texts_read_back, write};
