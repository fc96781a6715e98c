// What is wrong with a text.
ghost use Rattle.std.specs.Prelude.{◌≡◌};
ghost use Rattle.tpl_lang.specs.Kinds.{kind_number};

/// What is wrong with a line. Of several kinds the least is told.
#[derive(Clone, Copy, Debug, PartialEq, Eq)]
pub enum Kind {
    /// It holds a byte that isn't allowed.
    BadByte = 1,
    /// It is no statement that is allowed in its place.
    Unexpected = 2,
    /// It has a number above 2^32 - 1, or above the limit of its place.
    NumberTooLarge = 3,
    /// It uses a set, a name, a label, an operation or a CSR that isn't known there.
    UnknownName = 4,
    /// It declares a set, a name or a label that was declared before.
    DoubleName = 5,
    /// It has two atoms `== NAME` with one name.
    NameTwiceInLeaf = 6,
    /// It has a set without elements, or vectors without a multiple of 4.
    EmptyDomain = 7,
    /// It opens a 17th block inside a body.
    TooDeep = 8,
    /// It closes a body with which the length over all harts exceeds 8,192.
    TooLong = 9,
    /// It passes a count.
    TooMany = 10,
    /// It has a region, a frame, a flag byte or an address of a word that is not allowed.
    BadRam = 11,
    /// It has a hart's number, a pc, a CSR or a register that is not allowed.
    BadStart = 12,
}

impl Kind {
    /// The kind's number, from 1.
    pub fn number(self) -> u8
        ensures { result ≡ kind_number self }
    {
        self as u8
    }
}

/// The first line that has a fault, counted from 1, and the least kind on it. Line 0 is the text as a whole.
#[derive(Clone, Copy, Debug, PartialEq, Eq)]
pub struct Fault {
    pub line: u32,
    pub kind: Kind,
}
