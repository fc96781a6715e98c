// What a template says.
use crate::Items;
use dom_set::Set;
use rv_csr::Priv;

/// The bytes of memory from address `low` up to, and not including, address `high`.
#[derive(Clone, Copy, Debug, PartialEq, Eq)]
pub struct Region {
    pub low: u32,
    pub high: u32,
}

/// A variable of a step, of which atoms speak.
#[derive(Clone, Copy, Debug, PartialEq, Eq)]
pub enum Var {
    Op,
    Rs1,
    Rs2,
    Rd,
    Imm,
    Csr,
    /// The virtual address of a load or store.
    Ea,
    /// The value of rs1.
    A,
    /// The value of rs2.
    B,
    /// The physical address of a load or store.
    Pa,
    Target,
    Outcome,
}

/// A constraint on one step. In sets an operation is the number of its row, an outcome is its cause, and retire is 255.
#[derive(Drop)]
pub enum Atom {
    In(Var, Set),
    NotIn(Var, Set),
    /// The variable has the value of the name with this index.
    Is(Var, u32),
    Same(Var, Var),
    Differ(Var, Var),
    Taken,
    NotTaken,
    Shared,
}

/// An atom, and whether it is a bias.
#[derive(Drop)]
pub struct Wish {
    pub atom: Atom,
    pub prefer: bool,
}

/// A part of a body.
#[derive(Drop)]
pub enum Item {
    Leaf {
        line: u32,
        wishes: Vec<Wish>,
    },
    FetchFault {
        line: u32,
        causes: Set,
    },
    Seq(Vec<Item>),
    Repeat {
        times: u32,
        body: Vec<Item>,
    },
    /// Alternatives with their weights.
    Choose {
        line: u32,
        ways: Vec<(u32, Vec<Item>)>,
    },
    /// Gives the name with this index the pc of its moment.
    Label {
        name: u32,
    },
}

/// A name with its domain; a label has all values.
#[derive(Drop)]
pub struct NameDecl {
    pub name: Items<u8>,
    pub set: Set,
    pub label: bool,
}

/// The start of a hart.
#[derive(Drop)]
pub struct HartState {
    pub pc: u32,
    pub privilege: Priv,
    pub mstatus: u32,
    pub medeleg: u32,
    pub satp: u32,
    /// Pairs of key and value by ascending key: 1 to 31 for a register, its `key` in the table of `rv_csr` for a CSR.
    pub places: Items<(u32, u32)>,
}

/// A hart and its body.
#[derive(Drop)]
pub struct HartDecl {
    pub start: HartState,
    pub body: Vec<Item>,
}

/// What a text says.
#[derive(Drop)]
pub struct Template {
    /// The bytes that it was read from.
    pub text: Items<u8>,
    pub ram: Items<Region>,
    pub pool: Items<u32>,
    pub tables: Items<u32>,
    pub flags: Items<u8>,
    /// Values for vectors and return addresses that nothing gives, multiples of 4.
    pub vectors: Set,
    /// The started words by ascending address.
    pub words: Items<(u32, u32)>,
    pub names: Items<NameDecl>,
    pub harts: Items<HartDecl>,
}
