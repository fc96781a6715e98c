// The words that are legal for control and status registers, as patterns.
ghost use Rattle.std.specs.Prelude.{ℕ, ◌≡◌, ◌^◌, ◌<◌};
ghost use Rattle.dom_set.specs.Elements.{is_matching};
ghost use Rattle.rv_csr.specs.Table.{is_legal, is_legal_at};
ghost use Rattle.rv_csr.specs.declared.table.Register.TheVariants.{Lazy};

use rv_csr::{LazyRegister, Register, register_at};

/// A mask and the bits under it.
pub type Pattern = (u32, u32);

/// Every word.
const ALL: &[Pattern] = &[(0, 0)];

/// The multiples of four.
const FOURTHS: &[Pattern] = &[(3, 0)];

/// Words with no bit outside the masks of sstatus and medeleg (Privileged, 4.1.1 and 3.1.8).
const SSTATUS: &[Pattern] = &[(0xfff3_fedd, 0)];

const MEDELEG: &[Pattern] = &[(0xffff_4c00, 0)];

/// Words with no bit outside the mask of mstatus, and in its field MPP a privilege: bit 12 is clear, or
/// it and bit 11 are set (Privileged, 3.1.6).
const MSTATUS: &[Pattern] = &[(0xffa1_f655, 0), (0xffa1_fe55, 0x1800)];

/// No translation, or Sv32 with ASID 0 and a root table at a physical address below 2^32 (Privileged,
/// 4.1.11).
const SATP: &[Pattern] = &[(u32::MAX, 0), (0xfff0_0000, 0x8000_0000)];

/// The causes of traps: 0 to 7, 8 and 9, 12 and 13, 15, and 11, of which a trap to S has all but the
/// last (Privileged, 3.1.15 and 3.1.8).
const CAUSES: &[Pattern] = &[
    (0xffff_fff8, 0),
    (0xffff_fffe, 8),
    (0xffff_fffe, 12),
    (u32::MAX, 15),
    (u32::MAX, 11),
];

const CAUSES_TO_S: &[Pattern] = &[
    (0xffff_fff8, 0),
    (0xffff_fffe, 8),
    (0xffff_fffe, 12),
    (u32::MAX, 15),
];

/// The patterns of the words that are legal for a register that may have no value yet.
fn patterns_for_lazy(register: LazyRegister) -> &'static [Pattern]
    ensures { (n : ℕ) → n < 2 ^ 32 → is_matching result.now n ≡ is_legal (Lazy register) n }
{
    match register {
        LazyRegister::Stvec => FOURTHS,
        LazyRegister::Sscratch => ALL,
        LazyRegister::Sepc => FOURTHS,
        LazyRegister::Scause => CAUSES_TO_S,
        LazyRegister::Stval => ALL,
        LazyRegister::Mtvec => FOURTHS,
        LazyRegister::Mscratch => ALL,
        LazyRegister::Mepc => FOURTHS,
        LazyRegister::Mcause => CAUSES,
        LazyRegister::Mtval => ALL,
    }
}

/// The patterns of the words that are legal for a register.
#[tactic(auto, using(crate::proofs::Legality::sstatus, crate::proofs::Legality::medeleg, crate::proofs::Legality::mstatus))]
fn patterns_for(register: Register) -> &'static [Pattern]
    ensures { (n : ℕ) → n < 2 ^ 32 → is_matching result.now n ≡ is_legal register n }
{
    match register {
        Register::Sstatus => SSTATUS,
        Register::Satp => SATP,
        Register::Mstatus => MSTATUS,
        Register::Medeleg => MEDELEG,
        Register::Mhartid => &[],
        Register::Lazy(lazy) => patterns_for_lazy(lazy),
    }
}

/// The patterns of the words that are legal for the register at an address; none where there is no
/// register.
#[tactic(auto, using(crate::proofs::Registers::no_register))]
pub fn legal_patterns(csr: u32) -> &'static [Pattern]
    ensures { (n : ℕ) → n < 2 ^ 32 → is_matching result.now n ≡ is_legal_at csr n }
{
    match u16::try_from(csr) {
        Ok(address) => match register_at(address) {
            Some(register) => patterns_for(register),
            None => &[],
        },
        Err(_) => &[],
    }
}
