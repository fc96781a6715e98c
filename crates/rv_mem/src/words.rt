// Memory as a step sees and changes it.
ghost use Rattle.std.specs.Prelude.{◌≡◌, ◌≢◌, ◌/◌, ◌%◌, ℕ};

/// What is seen of an aligned word of memory.
#[derive(Clone, Copy, Debug, PartialEq, Eq)]
pub enum Seen {
    /// A word of RAM with this value.
    Known(u32),
    /// A word of RAM that has no value yet.
    Untouched,
    /// No RAM.
    Vacant,
}

/// A memory of which some words may not be known yet.
pub trait Words {
    ghost use Rattle.rv_mem.specs.declared.words.Seen.{Seen};

    /// What is seen of the word with each number, which is its address divided by 4.
    ghost at: { Self → ℕ → Seen };

    /// What is seen of the word at an address, a multiple of 4.
    fn word(&self, a: u32) -> Seen
        requires { a % 4 ≡ 0 }
        ensures { result ≡ at self.now (a / 4) };
}

/// A memory that stores.
pub trait Mem: Words {
    ghost use Rattle.rv_mem.specs.declared.words.Seen.TheVariants.{Known};
    ghost use Rattle.rv_mem.specs.Bytes.{with_byte};

    /// Stores a byte at an address in a word that is known. All other bytes stay.
    fn set_byte(&mut self, a: u32, v: u8)
        requires known { (w : ℕ) × (Self.at self.old (a / 4) ≡ Known w) }
        ensures byte { (w : ℕ) → Self.at self.old (a / 4) ≡ Known w → Self.at self.new (a / 4) ≡ Known (with_byte w (a % 4) v) }
        ensures others { (n : ℕ) → n ≢ a / 4 → Self.at self.new n ≡ Self.at self.old n };
}
