// Cases, each with its operation and how its steps end.

ghost use Rattle.std.specs.Prelude.{◌≡◌, ◌∷◌, ◌++◌, [], OnOk};

use dom_set::OutOfMemory;
use fd_prob::{Case, Items};
use leaf_stand::Shape;

/// Cases, and of each which operation it is of and how its steps end.
#[derive(Drop)]
pub struct Shaped {
    pub cases: Items<Case>,
    pub shapes: Items<Shape>,
}

impl Shaped {
    /// Appends a case.
    pub fn push(&mut self, case: Case, shape: Shape) -> Result<(), OutOfMemory>
        ensures cases { OnOk result (self.new.cases ≡ self.old.cases ++ case ∷ []) }
        ensures shapes { OnOk result (self.new.shapes ≡ self.old.shapes ++ shape ∷ []) }
    {
        self.cases.push(case)?;
        self.shapes.push(shape)?;
        Ok(())
    }
}
