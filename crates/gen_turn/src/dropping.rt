// The biases of a leaf that were not kept.
ghost use Rattle.std.specs.Prelude.{◌≡◌, ◌≤◌, ◌-◌, length, map, OnOk, slice_index, if◌then◌else◌};
ghost use Rattle.tpl_ast.specs.Limits.{most_atoms};
ghost use Rattle.part_machine.specs.Whole.{with_dropped};
ghost use Rattle.part_state.specs.State.{here};
ghost use Rattle.leaf_turn.specs.Answers.{AreKept};
ghost use Rattle.gen_turn.specs.Turns.{bias_atoms, listed_as, with_all_dropped};

use leaf_turn::OutOfMemory;
use part_state::Part;
use tpl_admit::{Dropped, Why};
use tpl_ast::Wish;

/// How many biases are left to be gone past behind an atom.
fn left_behind(left: u32, wish: &Wish) -> u32
    ensures { result ≡ (if wish.now.prefer then left - 1 else left) }
{
    if wish.prefer {
        left.saturating_sub(1)
    } else {
        left
    }
}

/// The number among the atoms of a leaf of the bias with a number among its biases, and 0 where there is none.
fn bias_atom(wishes: &[Wish], bias: u32) -> u32
    requires { length wishes.now ≤ most_atoms }
    ensures { result ≡ slice_index (bias_atoms 0 wishes.now) bias }
{
    let mut left = bias;
    let mut atom = 0;
    for wish in wishes {
        if wish.prefer && left == 0 {
            return atom;
        }
        left = left_behind(left, wish);
        atom += 1;
    }
    0
}

/// Lists a bias that was not kept.
fn drop_bias(
    part: &mut Part,
    hart: u8,
    step: u32,
    wishes: &[Wish],
    bias: &(u32, bool),
) -> Result<(), OutOfMemory>
    requires { length wishes.now ≤ most_atoms }
    ensures now { OnOk result (here part.new ≡ with_dropped (listed_as hart step wishes.now bias.now) (here part.old)) }
    ensures kept { AreKept part.old part.new }
{
    part.drop_wish(Dropped {
        hart: u32::from(hart),
        step,
        atom: bias_atom(wishes, bias.0),
        why: if bias.1 { Why::Spent } else { Why::NoneFits },
    })?;
    Ok(())
}

/// Lists the biases of a leaf that were not kept, at a step of a hart.
pub fn drop_biases(
    part: &mut Part,
    hart: u8,
    step: u32,
    wishes: &[Wish],
    dropped: &[(u32, bool)],
) -> Result<(), OutOfMemory>
    requires { length wishes.now ≤ most_atoms }
    ensures now { OnOk result (here part.new ≡ with_all_dropped (map (listed_as hart step wishes.now) dropped.now) (here part.old)) }
    ensures kept { AreKept part.old part.new }
{
    for bias in dropped {
        drop_bias(part, hart, step, wishes, bias)?;
    }
    Ok(())
}
