//! Values in order, which a contract sees as the list of them.
ghost use Rattle.std.specs.Prelude.{◌≡◌, ◌++◌, ◌∷◌, ◌==◌, ◌<◌, ◌≤◌, ◌↔◌, [], length, IfErr, IfOk, IsSome, OnErr, OnOk};
ghost use Rattle.std.specs.List.{insert};
ghost use Rattle.std.specs.Option.{option_to_list};

use crate::{TryClone, copies_of};
use std::alloc::{AllocError, AllocFailed, Global};
use std::marker::Model;

/// Values in order.
#[derive(Debug)]
pub struct Seq<T> {
    items: Vec<T>,
}

impl<T: Drop> Drop for Seq<T> {
    // Not derived: each crate above would prove a derived one again.
    fn drop(self) {
        let Seq { items: _items } = self;
    }
}

impl<T> Model for Seq<T> {
    ghost use Rattle.std.specs.Prelude.{List};

    ghost Value = { List T };

    ghost view = { λ a. a.items.items };
}

impl<T> Seq<T> {
    /// No values; asks for no memory.
    pub fn new(alloc: Global) -> Seq<T>
        ensures { result ≡ [] }
    {
        Seq {
            items: Vec::new(alloc),
        }
    }

    /// No values, with room for `capacity` of them.
    pub fn with_capacity(alloc: Global, capacity: usize) -> Result<Seq<T>, AllocError>
        ensures { IfOk result (λ s. s ≡ []) }
    {
        Ok(Seq {
            items: Vec::with_capacity(alloc, capacity)?,
        })
    }

    /// The values of a vector, which moves in.
    pub fn from_vec(items: Vec<T>) -> Seq<T>
        ensures { result ≡ items.items }
    {
        Seq { items }
    }

    /// The vector of the values.
    pub fn into_vec(self) -> Vec<T>
        ensures { result.items ≡ self }
    {
        let Seq { items } = self;
        items
    }

    /// Appends a value. Where memory is wanting the list stays, and the value comes back.
    pub fn push(&mut self, item: T) -> Result<(), AllocFailed<T>>
        ensures ok { OnOk result (self.new ≡ self.old ++ item ∷ []) }
        ensures err { OnErr result (self.new ≡ self.old) }
        ensures value_returned { IfErr result (λ e. e.value ≡ item) }
    {
        self.items.push(item)
    }

    /// Puts a value before the one at `index`, or at the end. Where memory is wanting the list
    /// stays, and the value comes back.
    pub fn insert(&mut self, index: usize, item: T) -> Result<(), AllocFailed<T>>
        requires { index ≤ length self.old }
        ensures ok { OnOk result (self.new ≡ insert self.old index item) }
        ensures err { OnErr result (self.new ≡ self.old) }
        ensures value_returned { IfErr result (λ e. e.value ≡ item) }
    {
        self.items.insert(index, item)
    }

    /// Takes the last value off, if there is one.
    pub fn pop(&mut self) -> Option<T>
        ensures last { self.old ≡ self.new ++ option_to_list result }
        ensures found { IsSome result ↔ (0 < length self.old) }
    {
        self.items.pop()
    }

    pub fn as_slice(&self) -> &[T]
        ensures { result.now ≡ self.now }
    {
        self.items.as_slice()
    }

    pub fn len(&self) -> usize
        ensures { result ≡ length self.now }
    {
        self.items.len()
    }

    pub fn is_empty(&self) -> bool
        ensures { result ≡ (length self.now == 0) }
    {
        self.items.is_empty()
    }
}

impl<T: Copy> Seq<T> {
    /// A copy of the values of a slice.
    pub fn from_slice(alloc: Global, items: &[T]) -> Result<Seq<T>, AllocError>
        ensures { IfOk result (λ s. s ≡ items.now) }
    {
        Ok(Seq {
            items: Vec::from_slice(alloc, items)?,
        })
    }

    /// Appends a copy of a slice. Where memory is wanting the list stays.
    pub fn extend_from_slice(&mut self, items: &[T]) -> Result<(), AllocError>
        ensures ok { OnOk result (self.new ≡ self.old ++ items.now) }
        ensures err { OnErr result (self.new ≡ self.old) }
    {
        self.items.extend_from_slice(items)
    }
}

impl<T: TryClone> TryClone for Seq<T> {
    fn try_clone(&self, alloc: Global) -> Result<Seq<T>, AllocError> {
        Ok(Seq {
            items: copies_of(alloc, &self.items)?,
        })
    }
}
