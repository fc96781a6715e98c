// What one step does to memory, access by access.
ghost use Rattle.std.specs.Prelude.{◌≡◌, ◌<◌, ◌≤◌, [], ◌∷◌, ◌++◌, length};

use arrayvec::ArrayVec;
use std::marker::Model;

/// What an access to memory is for.
#[derive(Clone, Copy, Debug, Default, PartialEq, Eq)]
pub enum Role {
    /// It reads the instruction word.
    #[default]
    Fetch,
    /// It reads a page table entry.
    Walk,
    /// It reads the data of a load.
    Load,
    /// It writes the data of a store.
    Store,
}

/// One access to memory, inside one aligned word.
#[derive(Clone, Copy, Debug, Default, PartialEq, Eq)]
pub struct Access {
    pub role: Role,
    /// The physical address of the first byte.
    pub addr: u32,
    /// 1, 2 or 4 bytes.
    pub size: u8,
    /// The bytes as they lie in memory, the first one lowest; no sign is extended.
    pub value: u32,
}

/// The accesses of one step in the order of execution, at most eight.
#[derive(Drop)]
pub struct Accesses {
    items: ArrayVec<Access, 8>,
}

impl Model for Accesses {
    ghost use Rattle.std.specs.Prelude.{List};
    ghost use Rattle.rv_script.specs.declared.access.Access.{Access};

    ghost Value = { List Access };

    ghost view = { λ a. a.items.items };
}

impl Accesses {
    pub fn new() -> Self
        ensures { result ≡ [] }
    {
        Accesses {
            items: ArrayVec::new(),
        }
    }

    pub fn push(&mut self, access: Access)
        requires { length self.old < 8 }
        ensures { self.new ≡ self.old ++ access ∷ [] }
    {
        self.items.push(access);
    }

    /// How many there are, at most eight.
    pub fn len(&self) -> usize
        ensures count { result ≡ length self.now }
        ensures room { result ≤ 8 }
    {
        self.items.len()
    }

    pub fn as_slice(&self) -> &[Access]
        ensures { result.now ≡ self.now }
    {
        self.items.as_slice()
    }
}
