// Draws, and what a search counts.
ghost use Rattle.std.specs.Prelude.{◌≡◌};
ghost use Rattle.gen_search.specs.Draws.{behind, words};
ghost use Rattle.rand_pcg.specs.Pcg.{pcg32};

use rand_core::utils::NextWord;
use rand_pcg::Lcg64Xsh32;

/// What a search has counted, and the draws that follow.
#[derive(Drop)]
pub struct Tally {
    /// The generator, whose next word is the next draw.
    pub draws: Lcg64Xsh32,
    /// Leaf turns that were made, dead or not.
    pub turns: u64,
    /// Leaf turns that nothing fitted.
    pub none_fits: u64,
    /// Leaf turns of which a problem was larger than its budget.
    pub spent: u64,
    /// The line of the last dead leaf in the template's text, from 1, or 0 where none was dead.
    pub last_line: u32,
}

/// The next draw.
pub fn draw(draws: &mut Lcg64Xsh32) -> u32
    ensures word { result ≡ (pcg32 draws.old).0 }
    ensures left { draws.new ≡ (pcg32 draws.old).1 }
{
    draws.next_word()
}

/// The 16 draws of a leaf turn.
pub fn leaf_draws(draws: &mut Lcg64Xsh32) -> [u32; 16]
    ensures words { result ≡ words 16 draws.old }
    ensures left { draws.new ≡ behind 16 draws.old }
{
    let mut taken = [0; 16];
    for word in taken.iter_mut() {
        *word = draw(draws);
    }
    taken
}
