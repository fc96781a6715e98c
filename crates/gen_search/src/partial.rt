// What a search works on.
ghost use Rattle.std.specs.Prelude.{◌≡◌, ◌≤◌, ◌+◌, [], ◌∷◌, ◌++◌, length, take, IfOk};

use crate::OutOfMemory;
use tpl_ast::Item;

/// The answer of a leaf turn.
#[derive(Clone, Copy, Debug, PartialEq, Eq)]
pub enum Turn {
    /// The leaf's step was added to the test.
    Taken,
    /// Nothing fits the leaf.
    NoneFits,
    /// A problem of the leaf is larger than its budget.
    Spent,
}

/// A test that is being made. Contracts see it as a whole and the list of its earlier wholes, to each of which it can
/// go back. What its changes make of a whole is told by rules, the same for all tests of the type: of a leaf turn they tell
/// which answers it may have. Where a change finds no memory, nothing is said of the whole that stands then.
pub trait PartialTest {
    ghost use Rattle.std.specs.Prelude.{ℕ, List};
    ghost use Rattle.gen_search.specs.Search.{IsLeaf, Rules};
    ghost use Rattle.tpl_ast.specs.declared.template.Item.{Item};
    ghost use Rattle.tpl_ast.specs.declared.template.Item.TheVariants.{Label};
    ghost use Rattle.gen_search.specs.Ready.{AllowsAll};
    ghost use Rattle.gen_search.specs.Wholes.{kept, answered};

    type Whole;

    ghost whole: { Self → Self.Whole };

    ghost earlier: { Self → List Self.Whole };

    /// How many leaf turns were made on it.
    ghost turned: { Self → ℕ };

    /// Which answers a leaf turn has on a whole, and what a label and an alternative that is taken make of it.
    ghost rules: { Rules Self.Whole };

    /// What has to be so of a whole for a leaf or a label of a hart, counted from 0, to be taken on it.
    ghost can_take: { Self.Whole → ℕ → Item → Type 0 };

    /// The number of the whole that stands, from 0: how many wholes are earlier. `rollback` goes back to it by this number.
    fn mark(&self) -> usize
        ensures { result ≡ length (earlier self.now) };

    /// Goes back to the whole with this number; those behind it are gone.
    fn rollback(&mut self, mark: usize)
        requires { mark ≤ length (earlier self.old) }
        ensures back { earlier self.new ++ (whole self.new ∷ []) ≡ take (mark + 1) (earlier self.old ++ (whole self.old ∷ [])) }
        ensures turned { turned self.new ≡ turned self.old };

    /// Makes a leaf turn for a leaf (a `Leaf` or a `FetchFault`) of a hart, counted from 0, with its 16 draws. After a dead
    /// one the wholes before it still stand, and perhaps others behind them.
    fn turn(&mut self, hart: usize, leaf: &Item, draws: &[u32; 16]) -> Result<Turn, OutOfMemory>
        requires leaf { (line : ℕ) × IsLeaf leaf.now line }
        requires can { can_take (whole self.old) hart leaf.now }
        ensures answer { IfOk result (λ t. rules.turn hart leaf.now draws.now (whole self.old) (answered t (whole self.new))) }
        ensures turned { IfOk result (λ _. turned self.new ≡ turned self.old + 1) }
        ensures at_most { turned self.new ≤ turned self.old + 1 }
        ensures still { IfOk result (λ _. AllowsAll can_take (whole self.old) (whole self.new)) }
        ensures kept { IfOk result (λ _. kept (earlier self.old) (whole self.old) (earlier self.new) (whole self.new)) };

    /// Binds the name of a label, by its number, to the pc of a hart.
    fn bind_label(&mut self, hart: usize, name: u32) -> Result<(), OutOfMemory>
        requires { can_take (whole self.old) hart (Label name) }
        ensures whole { IfOk result (λ _. whole self.new ≡ rules.label hart name (whole self.old)) }
        ensures turned { turned self.new ≡ turned self.old }
        ensures still { IfOk result (λ _. AllowsAll can_take (whole self.old) (whole self.new)) }
        ensures kept { IfOk result (λ _. kept (earlier self.old) (whole self.old) (earlier self.new) (whole self.new)) };

    /// Notes the alternative of a choice that is taken, counted from 0.
    fn take_choice(&mut self, way: u32) -> Result<(), OutOfMemory>
        ensures whole { IfOk result (λ _. whole self.new ≡ rules.way way (whole self.old)) }
        ensures turned { turned self.new ≡ turned self.old }
        ensures still { IfOk result (λ _. AllowsAll can_take (whole self.old) (whole self.new)) }
        ensures kept { IfOk result (λ _. kept (earlier self.old) (whole self.old) (earlier self.new) (whole self.new)) };
}
