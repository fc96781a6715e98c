// Problems with every operation, register and immediate.
use fd_prob::{Slot, fits};
use fd_solve::{Solved, solve};
use problem_rows::problem_of;
use std::alloc::Global;
use std::fmt::Write;
use std::test::Fail;

/// Operations, their variables, and what holds of these.
const FORMS: &str = "\
lui,auipc rd=each imm=all
jal rd=each imm=far; target 0x80000100 page
jalr rd=each rs1=each imm=signed a=all; holds rs1 a 0 0x80000800 - 7 0x80001004 0xffffffff - 0x12345678; target 0x80000100 page
beq,bne,blt,bge,bltu,bgeu rs1=each rs2=each imm=far a=all b=all; holds rs1 a 0 0x80000800 - 7 0x80001004 0xffffffff - 0x12345678; holds rs2 b 0 0x80000800 - 7 0x80001004 0xffffffff - 0x12345678; linked; target 0x80000100 page
lb,lh,lw,lbu,lhu rd=each rs1=each imm=signed a=all ea=all word=all; holds rs1 a 0 0x80000800 - 7 0x80001004 0xffffffff - 0x12345678; sum a imm ea; rows page 0 0 all / 0x80004000..0x80004fff 0 0 0 / 0x90000000..0x90000fff 1 0 all
sb,sh,sw rs1=each rs2=each imm=signed a=all b=all ea=all word=all; holds rs1 a 0 0x80000800 - 7 0x80001004 0xffffffff - 0x12345678; holds rs2 b 0 0x80000800 - 7 0x80001004 0xffffffff - 0x12345678; linked; sum a imm ea; rows page 0 0 all / 0x80004000..0x80004fff 0 0 0 / 0x90000000..0x90000fff 1 0 all
addi,slti,sltiu,xori,ori,andi,slli,srli,srai rd=each rs1=each imm=signed a=all; holds rs1 a 0 0x80000800 - 7 0x80001004 0xffffffff - 0x12345678
add,sub,sll,slt,sltu,xor,srl,sra,or,and rd=each rs1=each rs2=each a=all b=all; holds rs1 a 0 0x80000800 - 7 0x80001004 0xffffffff - 0x12345678; holds rs2 b 0 0x80000800 - 7 0x80001004 0xffffffff - 0x12345678; linked
fence,ecall,ebreak
mul,mulh,mulhsu,mulhu,div,divu,rem,remu rd=each rs1=each rs2=each a=all b=all; holds rs1 a 0 0x80000800 - 7 0x80001004 0xffffffff - 0x12345678; holds rs2 b 0 0x80000800 - 7 0x80001004 0xffffffff - 0x12345678; linked
csrrw,csrrs,csrrc rd=each rs1=each a=all csr=csrs; holds rs1 a 0 0x80000800 - 7 0x80001004 0xffffffff - 0x12345678; writes
csrrwi,csrrsi,csrrci rd=each imm=each csr=csrs; writes
mret,sret,sfence_vma,illegal";

/// What nothing meets: rd is rs1, and it is another register.
const NEVER: &str = "; same rs1 rd; differ rd rs1";

fn push_cases(text: &mut String, form: &str, more: &str) -> Result<(), Fail> {
    let (ops, rest) = form.split_once(' ').unwrap_or((form, ""));
    for op in ops.split(',') {
        if !text.is_empty() {
            text.push_str(" | ")?;
        }
        write!(text, "{op} {rest}{more}")?;
    }
    Ok(())
}

/// A case of each operation, with more relations.
fn cases(alloc: Global, more: &str) -> Result<String, Fail> {
    let mut text = String::new(alloc);
    for form in FORMS.split('\n') {
        push_cases(&mut text, form, more)?;
    }
    Ok(text)
}

/// Whether an assignment of the operation is found with a draw, and it fits.
fn is_found(alloc: Global, text: &str, draw: u32, op: u32) -> Result<bool, Fail> {
    let p = problem_of(alloc, text, draw)?;
    match solve(alloc, &p, u64::MAX)? {
        Solved::Found(x) => Ok(x.value(Slot::Op) == op && fits(&p, &x)),
        Solved::NoneFits | Solved::Spent => Ok(false),
    }
}

/// What an operation's number is multiplied by for a draw: one more than a multiple of the number of operations,
/// so that each operation is the pivot of its draw.
const SPREAD: u32 = 58 * 1_250_000 + 1;

#[test]
fn every_operation_is_searched(rt: HostRuntime) -> Result<(), Fail> {
    let alloc = rt.alloc();
    let text = cases(alloc, "")?;
    for op in 0..58u32 {
        assert!(rt;
            is_found(alloc, &text, op.wrapping_mul(SPREAD), op)?,
            "operation {op}"
        );
    }
    Ok(())
}

#[test]
fn no_operation_may_fit(rt: HostRuntime) -> Result<(), Fail> {
    let alloc = rt.alloc();
    let text = cases(alloc, NEVER)?;
    for draw in [0, 17, 0x1234_5678, u32::MAX] {
        let p = problem_of(alloc, &text, draw)?;
        assert_eq!(rt;
            solve(alloc, &p, u64::MAX)?,
            Solved::NoneFits,
            "with {draw}"
        );
    }
    Ok(())
}
