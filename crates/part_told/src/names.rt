// The names that have a value.
ghost use Rattle.std.specs.Prelude.{◌≡◌, IfOk};
ghost use Rattle.part_told.specs.Finishing.{known_from};

use crate::OutOfMemory;
use crate::states::push_known;
use std::alloc::Global;
use tpl_ast::Items;

/// The names that have a value, by ascending index. An index is a number of 32 bits: where there are more names than
/// that, there is no memory for them.
pub fn names_of(alloc: Global, names: &[Option<u32>]) -> Result<Items<(u32, u32)>, OutOfMemory>
    ensures { IfOk result (λ given. given ≡ known_from 0 names.now) }
{
    let mut given = Items::new(alloc);
    for n in 0..names.len() {
        let Ok(index) = u32::try_from(n) else {
            return Err(OutOfMemory);
        };
        push_known(&mut given, index, names[n])?;
    }
    Ok(given)
}
