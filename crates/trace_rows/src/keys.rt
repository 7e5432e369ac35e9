//! Keys of spans.

ghost use Rattle.std.specs.Prelude.{◌≡◌, [], ◌∷◌, ◌++◌, IfOk, OnOk, OnErr, None, take, length, ◌-◌};
ghost use Rattle.std.specs.List.{last_or};

use std::alloc::{AllocError, Global};
use std::marker::Model;

/// A list that has a key has room for so many from then on, and where that is full, for as many more and two: common
/// allocators give no smaller pieces of memory, and have no word of their own in these.
const FIRST_ROOM: usize = 6;

/// Keys of spans in order of arrival, which contracts see as a list.
#[derive(Drop)]
pub struct Keys {
    items: Vec<u32>,
}

impl Model for Keys {
    ghost use Rattle.std.specs.Prelude.{List, ℕ};

    ghost Value = { List ℕ };

    ghost view = { λ s. s.items.items };
}

impl Keys {
    /// No keys, which take no memory.
    pub fn new(alloc: Global) -> Self
        ensures { result ≡ [] }
    {
        Keys {
            items: Vec::new(alloc),
        }
    }

    /// One key.
    pub fn one(alloc: Global, key: u32) -> Result<Self, AllocError>
        ensures { IfOk result (λ keys. keys ≡ key ∷ []) }
    {
        let mut items = Vec::with_capacity(alloc, FIRST_ROOM)?;
        items.push(key)?;
        Ok(Keys { items })
    }

    /// The keys, borrowed.
    pub fn as_slice(&self) -> &[u32]
        ensures { result.now ≡ self.now }
    {
        self.items.as_slice()
    }

    /// One more key, behind the others.
    pub fn push(&mut self, key: u32) -> Result<(), AllocError>
        ensures on_success { OnOk result (self.new ≡ self.old ++ key ∷ []) }
        ensures on_refusal { OnErr result (self.new ≡ self.old) }
    {
        let count = self.items.len();
        if count == self.items.capacity() {
            self.items.reserve_exact(count + 2)?;
        }
        self.items.push(key)?;
        Ok(())
    }

    /// Takes back the latest key, if there is one, and answers it. Its room stays.
    pub fn pop(&mut self) -> Option<u32>
        ensures latest { result ≡ last_or None self.old }
        ensures rest { self.new ≡ take (length self.old - 1) self.old }
    {
        self.items.pop()
    }
}
