// Sets that are declared.
ghost use Rattle.std.specs.Prelude.{◌≡◌, ◌++◌, ◌∷◌, [], None, length, option_map, OnErr, OnOk};
ghost use Rattle.std.specs.Option.{is_some};
ghost use Rattle.tpl_lang.specs.Sets.{find_set};
ghost use Rattle.tpl_state.specs.Internal.Finding.{elements_of_set};

use dom_set::{OutOfMemory, Set};
use indexmap::IndexMap;
use std::alloc::Global;
use std::marker::Model;

/// The declared sets in the order of their declaration, found by their names.
#[derive(Drop)]
pub struct Sets {
    sets: IndexMap<Vec<u8>, Set>,
}

impl Model for Sets {
    ghost use Rattle.std.specs.Prelude.{List, map};
    ghost use Rattle.tpl_lang.specs.Sets.{NamedSet};

    ghost Value = { List NamedSet };

    ghost view = { λ s. map (λ e. (e.0.items, e.1)) s.sets.entries };
}

impl Sets {
    /// No sets.
    pub fn new(alloc: Global) -> Self
        ensures { result ≡ [] }
    {
        Sets {
            sets: IndexMap::new(alloc),
        }
    }

    /// How many sets there are.
    pub fn len(&self) -> usize
        ensures { result ≡ length self.now }
    {
        self.sets.len()
    }

    /// The set of a name.
    pub fn find(&self, name: &[u8]) -> Option<&Set>
        ensures value { option_map (λ s. s.now) result ≡ elements_of_set (find_set self.now name.now) }
        ensures found { is_some result ≡ is_some (find_set self.now name.now) }
    {
        self.sets.get(name)
    }

    /// Puts a set with a new name at the end. Without memory for it the sets stay as they are.
    pub fn push(&mut self, name: Vec<u8>, set: Set) -> Result<(), OutOfMemory>
        requires { find_set self.old name.items ≡ None }
        ensures ok { OnOk result (self.new ≡ self.old ++ (name.items, set) ∷ []) }
        ensures err { OnErr result (self.new ≡ self.old) }
    {
        self.sets.insert(name, set)?;
        Ok(())
    }
}
