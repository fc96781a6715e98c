// Names and labels that are declared.
ghost use Rattle.std.specs.Prelude.{◌≡◌, ◌≤◌, ◌+◌, ◌++◌, ◌∷◌, [], false, length, IfOk, OnErr, OnOk};
ghost use Rattle.tpl_ast.specs.Limits.{most_names};
ghost use Rattle.tpl_lang.specs.Known.{index_among, name_among};

use dom_set::{OutOfMemory, Set};
use indexmap::IndexMap;
use std::alloc::Global;
use std::marker::Model;
use tpl_ast::{Items, NameDecl};

/// What a name may be.
#[derive(Drop)]
struct Domain {
    set: Set,
    label: bool,
}

/// The declared names and labels in the order of their declaration, found by how they are spelled.
#[derive(Drop)]
pub struct Names {
    names: IndexMap<Vec<u8>, Domain>,
}

impl Model for Names {
    ghost use Rattle.std.specs.Prelude.{List, map};
    ghost use Rattle.tpl_ast.specs.declared.template.NameDecl.{NameDecl as Decl};

    ghost Value = { List Decl };

    ghost view = { λ s. map (λ e. record { name = e.0.items; set = e.1.set; label = e.1.label }) s.names.entries };
}

impl Names {
    /// No names.
    pub fn new(alloc: Global) -> Self
        ensures { result ≡ [] }
    {
        Names {
            names: IndexMap::new(alloc),
        }
    }

    /// How many names there are.
    pub fn len(&self) -> usize
        ensures { result ≡ length self.now }
    {
        self.names.len()
    }

    /// Whether a name is declared.
    pub fn has(&self, name: &[u8]) -> bool
        ensures { result ≡ name_among self.now name.now }
    {
        self.names.get_index_of(name).is_some()
    }

    /// The index of a name, or how many there are where it isn't declared.
    pub fn index_of(&self, name: &[u8]) -> u32
        requires { length self.now ≤ most_names }
        ensures { result ≡ index_among self.now name.now }
    {
        match self.names.get_index_of(name) {
            Some(index) => index as u32,
            None => self.len() as u32,
        }
    }

    /// Puts a new name at the end. Without memory for it the names stay as they are.
    pub fn push(&mut self, name: Vec<u8>, set: Set, label: bool) -> Result<(), OutOfMemory>
        requires { name_among self.old name.items ≡ false }
        ensures ok { OnOk result (self.new ≡ self.old ++ record { name = name.items; set = set; label = label } ∷ []) }
        ensures err { OnErr result (self.new ≡ self.old) }
        ensures count { length self.new ≤ length self.old + 1 }
    {
        self.names.insert(name, Domain { set, label })?;
        Ok(())
    }

    /// The declarations, in their order.
    pub fn into_decls(self, alloc: Global) -> Result<Items<NameDecl>, OutOfMemory>
        ensures { IfOk result (λ decls. decls ≡ self) }
    {
        let Names { names } = self;
        let mut decls = Items::new(alloc);
        for (name, domain) in names {
            let Domain { set, label } = domain;
            decls.push(NameDecl {
                name: Items::from_vec(name),
                set,
                label,
            })?;
        }
        Ok(decls)
    }
}
