//! Words cut at the places of the register format.

ghost use Rattle.std.specs.Prelude.{◌≡◌, ◌+◌, ◌≤◌, ◌<◌};
ghost use Rattle.rv_isa.specs.Encoding.{bits, cut_of, parts, word_of_parts};
ghost use Rattle.rv_isa.specs.Reading.{AreParts};

/// A word cut where the R format cuts it, from bit 31 down (Unprivileged, 2.2). A format is told by
/// what it has at these places.
#[derive(Clone, Copy)]
pub struct Parts {
    pub funct7: u8,
    pub rs2: u8,
    pub rs1: u8,
    pub funct3: u8,
    pub rd: u8,
    pub opcode: u8,
}

impl Parts {
    /// The parts from bit 31 down.
    pub fn new(funct7: u8, rs2: u8, rs1: u8, funct3: u8, rd: u8, opcode: u8) -> Parts
        ensures { result ≡ parts funct7 rs2 rs1 funct3 rd opcode }
    {
        Parts {
            funct7,
            rs2,
            rs1,
            funct3,
            rd,
            opcode,
        }
    }

    /// The parts of a word.
    pub fn of(word: u32) -> Parts
        ensures value { result ≡ cut_of word }
        ensures parts { AreParts result }
    {
        Parts::new(
            bits(word, 31, 25),
            bits(word, 24, 20),
            bits(word, 19, 15),
            bits(word, 14, 12),
            bits(word, 11, 7),
            bits(word, 6, 0),
        )
    }

    /// The word that has these parts.
    pub fn word(self) -> u32
        requires { AreParts self }
        ensures { result ≡ word_of_parts self }
    {
        (u32::from(self.funct7) << 25)
            + (u32::from(self.rs2) << 20)
            + (u32::from(self.rs1) << 15)
            + (u32::from(self.funct3) << 12)
            + (u32::from(self.rd) << 7)
            + u32::from(self.opcode)
    }
}

/// Bits `high` down to `low` of a number, at most eight of them.
pub fn bits(n: u32, high: u32, low: u32) -> u8
    requires order { low ≤ high }
    requires inside { high < 32 }
    requires narrow { high < low + 8 }
    ensures { result ≡ bits n high low }
{
    ((n >> low) & ((1 << (high + 1 - low)) - 1)) as u8
}
