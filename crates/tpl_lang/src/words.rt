// The words of the template language.
ghost use Rattle.std.specs.Prelude.{◌≡◌, ◌≤◌, ◌||◌, is_some, length};
ghost use Rattle.rv_isa.specs.declared.operation.TheConstants.{OPS};
ghost use Rattle.rv_isa.specs.Numbers.{op_number_among};
ghost use Rattle.tpl_lang.specs.Words.{csr_among, csr_of, is_register_word, is_reserved, key_among, key_of, op_among, op_of, spelling_of};

use rv_csr::{REGISTERS, Register, row_of};
use rv_isa::{OPS, Op, name_of};

/// A word that statements, sets and atoms are written with.
#[derive(Clone, Copy, Debug, PartialEq, Eq)]
pub enum Key {
    Ram,
    Pool,
    Tables,
    Pteflags,
    Vectors,
    Set,
    Name,
    In,
    Data,
    Hart,
    Start,
    Pc,
    Priv,
    Machine,
    Supervisor,
    User,
    Csr,
    Reg,
    Body,
    Do,
    Fault,
    Seq,
    Repeat,
    Choose,
    Label,
    Align,
    Retire,
    Prefer,
    Not,
    Op,
    Rs1,
    Rs2,
    Rd,
    Imm,
    Ea,
    A,
    B,
    Pa,
    Target,
    Outcome,
    Taken,
    Shared,
}

/// All of them.
pub const KEYS: [Key; 42] = [
    Key::Ram,
    Key::Pool,
    Key::Tables,
    Key::Pteflags,
    Key::Vectors,
    Key::Set,
    Key::Name,
    Key::In,
    Key::Data,
    Key::Hart,
    Key::Start,
    Key::Pc,
    Key::Priv,
    Key::Machine,
    Key::Supervisor,
    Key::User,
    Key::Csr,
    Key::Reg,
    Key::Body,
    Key::Do,
    Key::Fault,
    Key::Seq,
    Key::Repeat,
    Key::Choose,
    Key::Label,
    Key::Align,
    Key::Retire,
    Key::Prefer,
    Key::Not,
    Key::Op,
    Key::Rs1,
    Key::Rs2,
    Key::Rd,
    Key::Imm,
    Key::Ea,
    Key::A,
    Key::B,
    Key::Pa,
    Key::Target,
    Key::Outcome,
    Key::Taken,
    Key::Shared,
];

fn spelling(key: Key) -> &'static [u8]
    ensures { result.now ≡ spelling_of key }
{
    match key {
        Key::Ram => b"ram",
        Key::Pool => b"pool",
        Key::Tables => b"tables",
        Key::Pteflags => b"pteflags",
        Key::Vectors => b"vectors",
        Key::Set => b"set",
        Key::Name => b"name",
        Key::In => b"in",
        Key::Data => b"data",
        Key::Hart => b"hart",
        Key::Start => b"start",
        Key::Pc => b"pc",
        Key::Priv => b"priv",
        Key::Machine => b"m",
        Key::Supervisor => b"s",
        Key::User => b"u",
        Key::Csr => b"csr",
        Key::Reg => b"reg",
        Key::Body => b"body",
        Key::Do => b"do",
        Key::Fault => b"fault",
        Key::Seq => b"seq",
        Key::Repeat => b"repeat",
        Key::Choose => b"choose",
        Key::Label => b"label",
        Key::Align => b"align",
        Key::Retire => b"retire",
        Key::Prefer => b"prefer",
        Key::Not => b"not",
        Key::Op => b"op",
        Key::Rs1 => b"rs1",
        Key::Rs2 => b"rs2",
        Key::Rd => b"rd",
        Key::Imm => b"imm",
        Key::Ea => b"ea",
        Key::A => b"a",
        Key::B => b"b",
        Key::Pa => b"pa",
        Key::Target => b"target",
        Key::Outcome => b"outcome",
        Key::Taken => b"taken",
        Key::Shared => b"shared",
    }
}

fn key_among(keys: &[Key], word: &[u8]) -> Option<Key>
    ensures { result ≡ key_among word.now keys.now }
{
    for key in keys {
        if spelling(*key) == word {
            return Some(*key);
        }
    }
    None
}

/// The key that a word is, if it is one.
#[tactic(auto, unfolding(crate::specs::Words::key_of))]
pub fn key_of(word: &[u8]) -> Option<Key>
    ensures { result ≡ key_of word.now }
{
    key_among(&KEYS, word)
}

fn op_among(ops: &[Op], word: &[u8]) -> Option<Op>
    ensures { result ≡ op_among word.now ops.now }
{
    for op in ops {
        if name_of(*op) == word {
            return Some(*op);
        }
    }
    None
}

/// The operation that a word names, if it names one.
#[tactic(auto, unfolding(crate::specs::Words::op_of))]
pub fn op_of(word: &[u8]) -> Option<Op>
    ensures { result ≡ op_of word.now }
{
    op_among(&OPS, word)
}

fn number_among(word: &[u8], ops: &[Op]) -> u32
    requires { length ops.now ≤ 256 }
    ensures { result ≡ op_number_among word.now ops.now }
{
    let mut n = 0;
    for one in ops {
        if name_of(*one) == word {
            return n;
        }
        n += 1;
    }
    n
}

/// The number of the row of the operation that a word names.
pub fn op_number(word: &[u8]) -> u32
    ensures { result ≡ op_number_among word.now OPS }
{
    number_among(word, &OPS)
}

fn csr_among(registers: &[Register], word: &[u8]) -> Option<Register>
    ensures { result ≡ csr_among word.now registers.now }
{
    for register in registers {
        if row_of(*register).name().as_bytes() == word {
            return Some(*register);
        }
    }
    None
}

/// The control and status register that a word names, if it names one.
#[tactic(auto, unfolding(crate::specs::Words::csr_of))]
pub fn csr_of(word: &[u8]) -> Option<Register>
    ensures { result ≡ csr_of word.now }
{
    csr_among(&REGISTERS, word)
}
