//! What instructions compute of the values of registers.

ghost use Rattle.std.specs.Prelude.{◌≡◌, IsTrue};
ghost use Rattle.rv_isa.specs.Arithmetic.{alu_result, is_alu, is_branch, is_taken, signed};

use crate::operation::Op;

/// What a register-register or register-immediate operation writes to rd (Unprivileged, 2.4 and M),
/// where `x` is the value of rs1 and `y` that of rs2, or the immediate.
pub fn alu(op: Op, x: u32, y: u32) -> u32
    requires { IsTrue (is_alu op) }
    ensures { result ≡ alu_result op x y }
{
    match op {
        Op::Add | Op::Addi => x.wrapping_add(y),
        Op::Sub => x.wrapping_sub(y),
        Op::Sll | Op::Slli => x.wrapping_shl(y),
        Op::Slt | Op::Slti => u32::from(x.cast_signed() < y.cast_signed()),
        Op::Sltu | Op::Sltiu => u32::from(x < y),
        Op::Xor | Op::Xori => x ^ y,
        Op::Srl | Op::Srli => x.wrapping_shr(y),
        Op::Sra | Op::Srai => x.cast_signed().wrapping_shr(y).cast_unsigned(),
        Op::Or | Op::Ori => x | y,
        Op::And | Op::Andi => x & y,
        Op::Mul => x.wrapping_mul(y),
        Op::Mulh => upper_signed(x, y),
        Op::Mulhsu => upper_mixed(x, y),
        Op::Mulhu => ((u64::from(x) * u64::from(y)) >> 32) as u32,
        Op::Div => quotient(x, y),
        Op::Divu => x.checked_div(y).unwrap_or(u32::MAX),
        Op::Rem => remainder(x, y),
        Op::Remu => x.checked_rem(y).unwrap_or(x),
        _ => unreachable!(),
    }
}

/// A word read as a signed number.
fn wide(x: u32) -> i64
    ensures { result ≡ signed x }
{
    i64::from(x.cast_signed())
}

/// The upper half of the product of two signed numbers.
fn upper_signed(x: u32, y: u32) -> u32
    ensures { result ≡ alu_result Op.Mulh x y }
{
    let product = wide(x) * wide(y);
    (product.cast_unsigned() >> 32) as u32
}

/// The upper half of the product of a signed and an unsigned number.
fn upper_mixed(x: u32, y: u32) -> u32
    ensures { result ≡ alu_result Op.Mulhsu x y }
{
    let product = wide(x) * i64::from(y);
    (product.cast_unsigned() >> 32) as u32
}

/// The quotient of two signed numbers.
fn quotient(x: u32, y: u32) -> u32
    ensures { result ≡ alu_result Op.Div x y }
{
    if y == 0 {
        return u32::MAX;
    }
    x.cast_signed()
        .wrapping_div(y.cast_signed())
        .cast_unsigned()
}

/// The remainder of two signed numbers, with the sign of the first.
fn remainder(x: u32, y: u32) -> u32
    ensures { result ≡ alu_result Op.Rem x y }
{
    if y == 0 {
        return x;
    }
    x.cast_signed()
        .wrapping_rem(y.cast_signed())
        .cast_unsigned()
}

/// Whether a branch goes to its target (Unprivileged, 2.5.2), where `x` is the value of rs1 and `y`
/// that of rs2.
pub fn taken(op: Op, x: u32, y: u32) -> bool
    requires { IsTrue (is_branch op) }
    ensures { result ≡ is_taken op x y }
{
    match op {
        Op::Beq => x == y,
        Op::Bne => x != y,
        Op::Blt => x.cast_signed() < y.cast_signed(),
        Op::Bge => x.cast_signed() >= y.cast_signed(),
        Op::Bltu => x < y,
        Op::Bgeu => x >= y,
        _ => unreachable!(),
    }
}
