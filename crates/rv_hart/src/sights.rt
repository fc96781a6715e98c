// What reads see in place of the words of memory.
ghost use Rattle.std.specs.Prelude.{◌≡◌, ◌%◌};

/// The role of reads of page table entries of the fetch.
pub const FETCH_ENTRY: u8 = 0;

/// The role of the read of the instruction word.
pub const FETCHED_WORD: u8 = 1;

/// The role of reads of page table entries of the data access.
pub const DATA_ENTRY: u8 = 2;

/// Words that some reads of a step see in place of those of memory: a finite map from a role and the physical address
/// of an aligned word to words. Role 0 is that of the page table entries of the fetch, 1 that of the fetched word, and
/// 2 that of the page table entries of the data access.
pub trait Sights {
    ghost use Rattle.std.specs.Prelude.{ℕ};
    ghost use Rattle.std.specs.declared.option.Option.{Option};

    /// The word of each role and address, where there is one.
    ghost words: { Self → ℕ → ℕ → Option ℕ };

    /// The word of a role and an address, a multiple of 4.
    fn seen(&self, role: u8, addr: u32) -> Option<u32>
        requires { addr % 4 ≡ 0 }
        ensures { result ≡ words self.now role addr };
}

/// No sight of any word.
#[derive(Clone, Copy, Debug, PartialEq, Eq)]
pub struct NoSights;

impl Sights for NoSights {
    ghost use Rattle.std.specs.declared.option.Option.TheVariants.{None};

    ghost words = { λ sights role addr. None };

    fn seen(&self, _role: u8, _addr: u32) -> Option<u32> {
        None
    }
}
