// Memory of which some reads see other words.
ghost use Rattle.std.specs.Prelude.{◌≡◌, ◌≤◌, ◌/◌, ◌%◌, length};
ghost use Rattle.rv_script.specs.Folds.{Known};
ghost use Rattle.sv_walk.specs.Clauses.{AreAligned, IsEnd, KeepsOffset, KnowsWords, ended, ram_of};
ghost use Rattle.sv_walk.specs.Translation.{translated};
ghost use Rattle.rv_hart.specs.Sighted.{answer_seen, sighted, walk_role};

use crate::sights::{DATA_ENTRY, FETCH_ENTRY};
use crate::{Seen, Sights, Words};
use sv_walk::{Kind, View, Walk, walk};

/// Memory with sights. Its words are those of the memory alone.
pub trait Sighted: Words {
    ghost use Rattle.std.specs.Prelude.{ℕ};
    ghost use Rattle.std.specs.declared.option.Option.{Option};
    ghost use Rattle.rv_hart.specs.Sighted.{at_role};

    /// The sights' word of each role and address, where there is one.
    ghost sights: { Self → ℕ → ℕ → Option ℕ };

    /// What a read in a role sees of the word at an address, a multiple of 4.
    fn word_seen(&self, role: u8, a: u32) -> Seen
        requires { a % 4 ≡ 0 }
        ensures { result ≡ at_role (sights self.now) role (Self.at self.now) (a / 4) };
}

/// A memory and sights.
#[derive(Drop)]
pub struct MemoryWith<'m, M, S> {
    pub memory: &'m M,
    pub sights: &'m S,
}

impl<M: Words, S: Sights> Words for MemoryWith<'_, M, S> {
    ghost at = { λ m. M.at m.memory.now };

    fn word(&self, a: u32) -> Seen {
        self.memory.word(a)
    }
}

impl<M: Words, S: Sights> Sighted for MemoryWith<'_, M, S> {
    ghost sights = { λ m. S.words m.sights.now };

    fn word_seen(&self, role: u8, a: u32) -> Seen {
        match self.memory.word(a) {
            Seen::Vacant => Seen::Vacant,
            seen => match self.sights.seen(role, a) {
                Some(word) => Seen::Known(word),
                None => seen,
            },
        }
    }
}

/// Memory as the reads in a role see it.
#[derive(Drop)]
struct InRole<'m, M> {
    memory: &'m M,
    role: u8,
}

impl<M: Sighted> Words for InRole<'_, M> {
    ghost use Rattle.rv_hart.specs.Sighted.{at_role};

    ghost at = { λ m. at_role (M.sights m.memory.now) m.role (M.at m.memory.now) };

    fn word(&self, a: u32) -> Seen {
        self.memory.word_seen(self.role, a)
    }
}

/// The role of the page table entries of an access.
fn walk_role(kind: Kind) -> u8
    ensures { result ≡ walk_role kind }
{
    match kind {
        Kind::Fetch => FETCH_ENTRY,
        Kind::Load | Kind::Store => DATA_ENTRY,
    }
}

/// The walk of an address, which sees the sights' words.
pub fn walk_with<M: Sighted>(m: &M, v: View, va: u32, kind: Kind) -> Walk
    ensures answer { (k : Known) → KnowsWords k (M.at m.now) → ended result.ptes result.outcome ≡ answer_seen (sighted (M.sights m.now)) k (translated (ram_of (M.at m.now)) v kind va) }
    ensures end { IsEnd (M.at m.now) result.outcome }
    ensures offset { KeepsOffset va result.outcome }
    ensures aligned { AreAligned result.ptes }
    ensures few { length result.ptes ≤ 2 }
{
    let seen = InRole {
        memory: m,
        role: walk_role(kind),
    };
    walk(&seen, v, va, kind)
}
