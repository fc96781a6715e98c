// What new second entries lead to.
use row_parts::{Entries, is_same_target, second_target};
use rv_mem::Ram;
use sv_walk::{Kind, View};

/// New second entries, with what their ends depend on.
#[derive(Drop)]
pub struct SecondEntries<'a> {
    pub ram: &'a Ram,
    pub view: View,
    pub kind: Kind,
}

impl<'a> Entries for SecondEntries<'a> {
    ghost use Rattle.std.specs.Prelude.{[], ◌∷◌};
    ghost use Rattle.rv_mem.specs.Ram.{in_ram};
    ghost use Rattle.sv_walk.specs.Translation.{second_end};
    ghost use Rattle.row_parts.specs.Rows.{Reaches};

    ghost ends = { λ s w x leaf. Reaches (second_end (in_ram s.ram.now) s.view s.kind x w) ∷ [] };

    fn are_alike(&self, a: u32, b: u32) -> bool {
        let first = second_target(self.view, self.kind, a);
        let second = second_target(self.view, self.kind, b);
        is_same_target(first, second)
    }
}
