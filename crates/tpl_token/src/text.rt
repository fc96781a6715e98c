// Statements whose words lie in the text.
use rv_csr::Priv;
use tpl_ast::Var;
use tpl_lang::{Element, Numeral, OutcomeElement};

/// A set of numbers as it is spelled.
#[derive(Drop)]
pub enum SetText<'a> {
    /// The set of a name.
    Named(&'a [u8]),
    /// Elements in braces, and what stands behind `align`.
    Listed(Vec<Element>, Option<Numeral>),
}

/// What a variable is among.
#[derive(Drop)]
pub enum DomainText<'a> {
    /// A set of numbers.
    Numbers(SetText<'a>),
    /// Names of operations or CSRs.
    Words(Vec<&'a [u8]>),
    /// Causes and `retire`.
    Outcomes(Vec<OutcomeElement>),
}

/// An atom of a leaf.
#[derive(Drop)]
pub enum AtomText<'a> {
    /// A variable is among values.
    Among(Var, DomainText<'a>),
    /// A variable is not among values.
    NotAmong(Var, DomainText<'a>),
    /// A variable has the value of a name or a label.
    IsName(Var, &'a [u8]),
    /// Two variables are equal.
    Same(Var, Var),
    /// Two variables differ.
    Differ(Var, Var),
    /// The branch is taken.
    Taken,
    /// The branch is not taken.
    NotTaken,
    /// A hart with a lower number loads or stores a byte of the 64-byte block of the data access.
    Shared,
}

/// An atom, with `prefer` before it or without.
#[derive(Drop)]
pub struct WishText<'a> {
    /// Whether `prefer` stands before it.
    pub prefer: bool,
    /// The atom itself.
    pub atom: AtomText<'a>,
}

/// What a line says.
#[derive(Drop)]
pub enum Statement<'a> {
    /// A region of memory: its first address, and the one behind its last.
    Ram(Numeral, Numeral),
    /// The addresses of frames of the pool.
    Pool(Vec<Numeral>),
    /// The addresses of frames for page tables.
    Tables(Vec<Numeral>),
    /// Flag bytes of page table entries.
    Flags(Vec<Numeral>),
    /// The addresses that trap vectors may have.
    Vectors(SetText<'a>),
    /// A set with its name.
    Set(&'a [u8], SetText<'a>),
    /// A name with its domain.
    Name(&'a [u8], SetText<'a>),
    /// The address of a word of the start, and the word.
    Data(Numeral, Numeral),
    /// Opens a hart, by its number.
    Hart(Numeral),
    /// A hart's pc and privilege.
    Start(Numeral, Priv),
    /// A CSR's name and value.
    Csr(&'a [u8], Numeral),
    /// A register's number, None where it is too large, and its value.
    Reg(Option<u32>, Numeral),
    /// Opens a hart's body.
    Body,
    /// A leaf with its atoms.
    Do(Vec<WishText<'a>>),
    /// A failing fetch with its causes.
    Fault(Vec<OutcomeElement>),
    /// Opens a sequence.
    Seq,
    /// Opens a repeat, by its times.
    Repeat(Numeral),
    /// Opens a choice.
    Choose,
    /// Opens an alternative, by its weight.
    Way(Numeral),
    /// A label with its name.
    Label(&'a [u8]),
    /// Closes the innermost block, or the hart.
    Close,
}
