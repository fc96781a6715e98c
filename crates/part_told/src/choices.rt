// The choices that were taken.
ghost use Rattle.std.specs.Prelude.{◌≡◌, ◌++◌, ◌∷◌, [], IfOk, OnOk};
ghost use Rattle.std.specs.List.{AllByRecursion};
ghost use Rattle.tpl_ast.specs.States.{IsWord};

use crate::OutOfMemory;
use std::alloc::Global;
use tpl_ast::Items;

/// Appends a choice.
fn push_choice(made: &mut Items<u32>, way: u32) -> Result<(), OutOfMemory>
    ensures pushed { OnOk result (made.new ≡ made.old ++ way ∷ []) }
    ensures word { IsWord way }
{
    made.push(way)?;
    Ok(())
}

/// The same choices once more.
pub fn choices_of(alloc: Global, choices: &[u32]) -> Result<Items<u32>, OutOfMemory>
    ensures same { IfOk result (λ made. made ≡ choices.now) }
    ensures words { IfOk result (AllByRecursion IsWord) }
{
    let mut made = Items::new(alloc);
    for way in choices {
        push_choice(&mut made, *way)?;
    }
    Ok(made)
}
