//! Objects that are made member by member.
ghost use Rattle.std.specs.Prelude.{◌≡◌, ◌<◌, ◌^◌, IfOk};
ghost use Rattle.serde_json.specs.Data.{no_members, number, object, put, string, unsigned};
ghost use Rattle.serde_json.specs.Find.{of_integer};
ghost use Rattle.serde_json.specs.View.{view};
ghost use Rattle.esr_json.specs.Builder.{members_so_far};

use serde_json::{Map, Value};
use std::alloc::{AllocError, Global};

/// An object that is made member by member.
#[derive(Drop)]
pub struct ObjectBuilder {
    alloc: Global,
    members: Map<String, Value>,
}

impl ObjectBuilder {
    /// An object with no members.
    pub fn new(alloc: Global) -> ObjectBuilder
        ensures { members_so_far result ≡ no_members }
    {
        ObjectBuilder {
            alloc,
            members: Map::new(alloc),
        }
    }

    /// Puts in a value.
    pub fn value(mut self, name: &str, value: Value) -> Result<ObjectBuilder, AllocError>
        ensures { IfOk result (λ b. members_so_far b ≡ put name.now (view value) (members_so_far self)) }
    {
        serde_json::put(&mut self.members, self.alloc, name, value)?;
        Ok(self)
    }

    /// Puts in a natural number.
    pub fn number(self, name: &str, value: u64) -> Result<ObjectBuilder, AllocError>
        ensures members { IfOk result (λ b. members_so_far b ≡ put name.now (number (unsigned value)) (members_so_far self)) }
        ensures range { value < 2 ^ 64 }
    {
        self.value(name, Value::from(value))
    }

    /// Puts in a whole number.
    pub fn integer(self, name: &str, value: i64) -> Result<ObjectBuilder, AllocError>
        ensures { IfOk result (λ b. members_so_far b ≡ put name.now (number (of_integer value)) (members_so_far self)) }
    {
        self.value(name, Value::from(value))
    }

    /// Puts in a text.
    pub fn text(self, name: &str, text: &str) -> Result<ObjectBuilder, AllocError>
        ensures { IfOk result (λ b. members_so_far b ≡ put name.now (string text.now) (members_so_far self)) }
    {
        let value = Value::try_from_str(self.alloc, text)?;
        self.value(name, value)
    }

    /// The object.
    pub fn build(self) -> Value
        ensures { view result ≡ object (members_so_far self) }
    {
        Value::Object(self.members)
    }
}
