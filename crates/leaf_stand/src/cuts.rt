// What atoms leave of each variable.

ghost use Rattle.std.specs.Prelude.{◌≡◌, false, IfOk, OnOk};
ghost use Rattle.tpl_ast.specs.Leaves.{same_var};
ghost use Rattle.leaf_link.specs.Cases.{all_tests};
ghost use Rattle.leaf_stand.specs.Internal.Cuts.{AddsCut, AreCuts, var_of};
ghost use Rattle.data_bytes.specs.Sets.{IsSetOf};
ghost use Rattle.leaf_stand.specs.Stands.{turn_of};

use crate::atoms::speak_of;
use crate::formats::Spans;
use crate::stand::Stand;
use dom_set::{OutOfMemory, Set};
use fd_prob::{Items, SLOTS, Slot};
use std::alloc::Global;
use tpl_ast::{Atom, Var};

/// The variable of atoms for one of problems.
fn var_of(slot: Slot) -> Option<Var>
    ensures { result ≡ var_of slot }
{
    match slot {
        Slot::Op => Some(Var::Op),
        Slot::Rs1 => Some(Var::Rs1),
        Slot::Rs2 => Some(Var::Rs2),
        Slot::Imm => Some(Var::Imm),
        Slot::Rd => Some(Var::Rd),
        Slot::Csr => Some(Var::Csr),
        Slot::Ea => Some(Var::Ea),
        Slot::A => Some(Var::A),
        Slot::B => Some(Var::B),
        Slot::FirstPte | Slot::SecondPte | Slot::DataWord | Slot::OldCsr | Slot::Vector => None,
    }
}

impl Stand<'_> {
    /// The words that pass the atoms on a variable.
    #[tactic(auto, using(crate::proofs::Sets::all_words))]
    fn cut(&self, alloc: Global, bias: &[Atom], var: Var) -> Result<Set, OutOfMemory>
        ensures { IfOk result (IsSetOf (all_tests (turn_of self.now) bias.now var)) }
    {
        let words = Spans::up_to(u32::MAX).set(alloc)?;
        self.passing(alloc, words, bias, var)
    }

    /// Appends the cut of a variable, where atoms are about it.
    fn push_cut(
        &self,
        alloc: Global,
        cuts: &mut Items<(Slot, Set)>,
        bias: &[Atom],
        slot: Slot,
    ) -> Result<(), OutOfMemory>
        ensures { OnOk result (AddsCut self.now bias.now slot cuts.old cuts.new) }
    {
        let Some(var) = var_of(slot) else {
            return Ok(());
        };
        if !speak_of(bias, var) {
            return Ok(());
        }
        let cut = self.cut(alloc, bias, var)?;
        cuts.push((slot, cut))?;
        Ok(())
    }

    /// What atoms leave of each variable that they are about.
    pub fn cuts(&self, alloc: Global, bias: &[Atom]) -> Result<Items<(Slot, Set)>, OutOfMemory>
        ensures { IfOk result (AreCuts self.now bias.now) }
    {
        let mut cuts = Items::new(alloc);
        for slot in SLOTS {
            self.push_cut(alloc, &mut cuts, bias, slot)?;
        }
        Ok(cuts)
    }
}
