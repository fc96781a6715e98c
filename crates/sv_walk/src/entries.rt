// The entries that a walk has read.
ghost use Rattle.std.specs.Prelude.{◌≡◌, ◌<◌, [], ◌∷◌, ◌++◌, length};

use arrayvec::ArrayVec;
use std::marker::Model;

/// Page table entries in the order in which a walk reads them, at most two: address and value.
#[derive(Drop)]
pub struct Entries {
    items: ArrayVec<(u32, u32), 2>,
}

impl Model for Entries {
    ghost use Rattle.std.specs.Prelude.{List, ℕ};

    ghost Value = { List (ℕ × ℕ) };

    ghost view = { λ a. a.items.items };
}

impl Entries {
    pub(crate) fn new() -> Self
        ensures { result ≡ [] }
    {
        Entries {
            items: ArrayVec::new(),
        }
    }

    pub(crate) fn push(&mut self, entry: (u32, u32))
        requires { length self.old < 2 }
        ensures { self.new ≡ self.old ++ entry ∷ [] }
    {
        self.items.push(entry);
    }

    pub fn as_slice(&self) -> &[(u32, u32)]
        ensures { result.now ≡ self.now }
    {
        self.items.as_slice()
    }
}
