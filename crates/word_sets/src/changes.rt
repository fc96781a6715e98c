// What an operand changes of a control and status register.
ghost use Rattle.std.specs.Prelude.{ℕ, ◌≡◌};
ghost use Rattle.word_sets.specs.Internal.Changes.{changed};
ghost use Rattle.word_sets.specs.Internal.Sources.{made};

use crate::sources::Made;

/// What becomes of the bits that an operand has (Unprivileged, Zicsr).
#[derive(Clone, Copy, Debug, PartialEq, Eq)]
pub enum Change {
    Sets,
    Clears,
}

impl Change {
    /// How what is written comes of an open operand and the old value.
    #[tactic(auto, using(std::proofs::lemmas::Nat::or_comm))]
    pub fn by_operand(self) -> Made
        ensures { (old operand : ℕ) → made result operand old ≡ changed self old operand }
    {
        match self {
            Change::Sets => Made::With,
            Change::Clears => Made::From,
        }
    }

    /// How it comes of an open old value and the operand.
    pub fn by_old(self) -> Made
        ensures { (old operand : ℕ) → made result old operand ≡ changed self old operand }
    {
        match self {
            Change::Sets => Made::With,
            Change::Clears => Made::Without,
        }
    }
}
