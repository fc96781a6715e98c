// The values of the fields of a format, for all operations in one place.

ghost use Rattle.std.specs.Prelude.{◌≡◌, ℕ, ◌+◌, ◌^◌, ◌<◌, ◌==◌, nat_lt};
ghost use Rattle.std.specs.Int.{IsPowerOfTwo};
ghost use Rattle.rv_isa.specs.Table.{row_of};
ghost use Rattle.fd_prob.specs.Slots.{slot_number};
ghost use Rattle.leaf_link.specs.Cases.{field_of, in_format, is_imm, or_no};
ghost use Rattle.rv_isa.specs.Numbers.{op_number};
ghost use Rattle.leaf_stand.specs.Sets.{in_spans};

use fd_prob::Slot;
use rv_isa::{Instr, Op};

/// The multiples of a power of two in two ranges.
#[derive(Clone, Copy)]
pub struct Spans {
    pub ranges: [(u32, u32); 2],
    pub align: u32,
}

impl Spans {
    /// The numbers from 0 to one.
    pub fn up_to(high: u32) -> Spans
        ensures test { (v : ℕ) → v < 2 ^ 32 → in_spans result v ≡ nat_lt v (high + 1) }
        ensures align { result.align ≡ 1 }
    {
        Spans {
            ranges: [(0, high), (1, 0)],
            align: 1,
        }
    }

    /// A number alone.
    pub fn one(value: u32) -> Spans
        ensures test { (v : ℕ) → v < 2 ^ 32 → in_spans result v ≡ (v == value) }
        ensures align { result.align ≡ 1 }
    {
        Spans {
            ranges: [(value, value), (1, 0)],
            align: 1,
        }
    }
}

const REGISTERS: Spans = Spans {
    ranges: [(0, 31), (1, 0)],
    align: 1,
};

/// The multiples of 4.
pub const FOURS: Spans = Spans {
    ranges: [(0, u32::MAX), (1, 0)],
    align: 4,
};

const SIGNED_12: Spans = Spans {
    ranges: [(0, 0x7ff), (0xffff_f800, u32::MAX)],
    align: 1,
};

const SIGNED_13: Spans = Spans {
    ranges: [(0, 0xffe), (0xffff_f000, 0xffff_fffe)],
    align: 2,
};

const SIGNED_21: Spans = Spans {
    ranges: [(0, 0xf_fffe), (0xfff0_0000, 0xffff_fffe)],
    align: 2,
};

const UPPER: Spans = Spans {
    ranges: [(0, 0xffff_f000), (1, 0)],
    align: 4096,
};

const ILLEGAL: Spans = Spans {
    ranges: [(0, 0), (u32::MAX, u32::MAX)],
    align: 1,
};

pub const ZERO: Spans = Spans {
    ranges: [(0, 0), (1, 0)],
    align: 1,
};

/// The immediates of an operation.
#[tactic(auto, using(crate::proofs::Sets::power_4096, crate::proofs::Sets::signed_13))]
pub fn immediates(op: Op) -> Spans
    ensures test { (v : ℕ) → v < 2 ^ 32 → in_spans result v ≡ is_imm (row_of op) v }
    ensures align { IsPowerOfTwo result.align }
{
    match op {
        Op::Lui | Op::Auipc => UPPER,
        Op::Jal => SIGNED_21,
        Op::Beq | Op::Bne | Op::Blt | Op::Bge | Op::Bltu | Op::Bgeu => SIGNED_13,
        Op::Slli | Op::Srli | Op::Srai | Op::Csrrwi | Op::Csrrsi | Op::Csrrci => REGISTERS,
        Op::Fence => Spans::up_to(255),
        Op::Illegal => ILLEGAL,
        _ => { if op.has_imm() { SIGNED_12 } else { ZERO } }
    }
}

fn registers_if(has: bool) -> Spans
    ensures test { (v : ℕ) → v < 2 ^ 32 → in_spans result v ≡ or_no has (nat_lt v 32) v }
    ensures align { IsPowerOfTwo result.align }
{
    if has { REGISTERS } else { ZERO }
}

/// The values of a field of the operation's format; 0 for one that it lacks.
pub fn field(op: Op, number: u8, slot: Slot) -> Spans
    requires { number ≡ op_number op }
    ensures test { (v : ℕ) → v < 2 ^ 32 → in_spans result v ≡ in_format op slot v }
    ensures align { IsPowerOfTwo result.align }
{
    match slot {
        Slot::Op => Spans::one(u32::from(number)),
        Slot::Rs1 => registers_if(op.has_rs1()),
        Slot::Rs2 => registers_if(op.has_rs2()),
        Slot::Imm => immediates(op),
        Slot::Rd => registers_if(op.has_rd()),
        Slot::Csr => {
            if op.has_csr() {
                Spans::up_to(4095)
            } else {
                ZERO
            }
        }
        _ => ZERO,
    }
}

/// The value of a field of an instruction.
pub fn field_of(i: &Instr, number: u8, slot: Slot) -> u32
    requires { number ≡ op_number i.now.op }
    ensures { result ≡ field_of i.now slot }
{
    match slot {
        Slot::Op => u32::from(number),
        Slot::Rs1 => u32::from(i.rs1),
        Slot::Rs2 => u32::from(i.rs2),
        Slot::Imm => i.imm,
        Slot::Rd => u32::from(i.rd),
        Slot::Csr => u32::from(i.csr),
        _ => 0,
    }
}
