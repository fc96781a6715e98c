// What instructions do, row by row of the table of encodings.
ghost use Rattle.std.specs.Prelude.{◌≡◌, ◌<◌, ◌≤◌, ◌%◌, ◌/◌, All, IsTrue, length, true};
ghost use Rattle.rv_script.specs.Folds.{prefixed};
ghost use Rattle.rv_isa.specs.Arithmetic.{is_alu, is_branch};
ghost use Rattle.rv_isa.specs.Reading.{decoded};
ghost use Rattle.rv_isa.specs.Table.{row_of};
ghost use Rattle.rv_isa.specs.Encoding.{IsInRange};
ghost use Rattle.rv_mem.specs.Seen.{is_there};
ghost use Rattle.rv_hart.specs.Machine.{instruction, immediate_row, register_row, upper_row, upper_pc_row, jump_row, jump_register_row, branch_row, load_row, load_from, store_row, store_to, fence_row, jumped, size_of, load_at, store_at, effect};
ghost use Rattle.rv_hart.specs.Changes.{IsSoundWrite};
ghost use Rattle.rv_hart.specs.Sighted.{answer_seen, sighted};
ghost use Rattle.rv_hart.specs.View.{known, fixed_of, looked};
ghost use Rattle.rv_hart.specs.Effects.{IsInWord};
ghost use Rattle.rv_hart.specs.Clauses.{IsSound};

use crate::data::{extend, low_bytes, part, size_of, word_of};
use crate::looked::{Looked, go_to, rd_of, retire};
use crate::privileged::{
    call, csr_immediate, csr_register, fence_addresses, refuse, return_from_machine,
    return_from_supervisor, trap,
};
use crate::reaching::{data_view, reach};
use crate::seeing::Sighted;
use crate::{Control, Hart, Seen};
use rv_csr::Cause;
use rv_isa::{Instr, Op, alu, decode, taken};
use rv_script::{Access, Accesses, Place, Role};
use sv_walk::Kind;

/// An operation on a register and an immediate.
#[tactic(auto, using(crate::proofs::Prefixes::prefixed_none), unfolding(crate::specs::Machine::immediate_row))]
fn immediate<M: Sighted>(h: &Hart, m: &M, word: u32, i: &Instr, log: &Accesses) -> Looked
    requires alu { IsTrue (is_alu i.now.op) }
    requires ranges { IsInRange i.now }
    ensures sound { IsSound h.now.privilege h.now.csrs result }
    ensures answer { looked log.now result ≡ prefixed log.now (answer_seen (sighted (M.sights m.now)) (known h.now (M.at m.now)) (immediate_row (fixed_of h.now (M.at m.now)) word i.now)) }
{
    match h.register(i.rs1) {
        None => Looked::Missing(Place::Reg(i.rs1)),
        Some(a) => Looked::Does(retire(h.pc, word, rd_of(i.rd, alu(i.op, a, i.imm)))),
    }
}

/// An operation on two registers.
#[tactic(auto, using(crate::proofs::Prefixes::prefixed_none), unfolding(crate::specs::Machine::register_row))]
fn registers<M: Sighted>(h: &Hart, m: &M, word: u32, i: &Instr, log: &Accesses) -> Looked
    requires alu { IsTrue (is_alu i.now.op) }
    requires ranges { IsInRange i.now }
    ensures sound { IsSound h.now.privilege h.now.csrs result }
    ensures answer { looked log.now result ≡ prefixed log.now (answer_seen (sighted (M.sights m.now)) (known h.now (M.at m.now)) (register_row (fixed_of h.now (M.at m.now)) word i.now)) }
{
    let Some(a) = h.register(i.rs1) else {
        return Looked::Missing(Place::Reg(i.rs1));
    };
    let Some(b) = h.register(i.rs2) else {
        return Looked::Missing(Place::Reg(i.rs2));
    };
    Looked::Does(retire(h.pc, word, rd_of(i.rd, alu(i.op, a, b))))
}

/// A jump, which traps where its target is no multiple of 4.
#[tactic(auto, using(crate::proofs::Prefixes::prefixed_none))]
fn jump<M: Sighted>(
    h: &Hart,
    m: &M,
    word: u32,
    rd: Option<(u8, u32)>,
    target: u32,
    log: &Accesses,
) -> Looked
    requires { IsSoundWrite rd }
    ensures sound { IsSound h.now.privilege h.now.csrs result }
    ensures answer { looked log.now result ≡ prefixed log.now (answer_seen (sighted (M.sights m.now)) (known h.now (M.at m.now)) (jumped (fixed_of h.now (M.at m.now)) word rd target)) }
{
    if target % 4 == 0 {
        Looked::Does(go_to(word, rd, Control::Stay, target))
    } else {
        trap(h, m, word, Cause::FetchMisaligned, target, log)
    }
}

/// A jump to a register's value and the immediate.
#[tactic(auto, using(crate::proofs::Prefixes::prefixed_none), unfolding(crate::specs::Machine::jump_register_row))]
fn jump_register<M: Sighted>(h: &Hart, m: &M, word: u32, i: &Instr, log: &Accesses) -> Looked
    requires { IsInRange i.now }
    ensures sound { IsSound h.now.privilege h.now.csrs result }
    ensures answer { looked log.now result ≡ prefixed log.now (answer_seen (sighted (M.sights m.now)) (known h.now (M.at m.now)) (jump_register_row (fixed_of h.now (M.at m.now)) word i.now)) }
{
    match h.register(i.rs1) {
        None => Looked::Missing(Place::Reg(i.rs1)),
        Some(a) => {
            let target = a.wrapping_add(i.imm);
            let rd = rd_of(i.rd, h.pc.wrapping_add(4));
            jump(h, m, word, rd, target - target % 2, log)
        }
    }
}

/// A branch.
#[tactic(auto, using(crate::proofs::Prefixes::prefixed_none), unfolding(crate::specs::Machine::branch_row))]
fn branch<M: Sighted>(h: &Hart, m: &M, word: u32, i: &Instr, log: &Accesses) -> Looked
    requires branch { IsTrue (is_branch i.now.op) }
    requires ranges { IsInRange i.now }
    ensures sound { IsSound h.now.privilege h.now.csrs result }
    ensures answer { looked log.now result ≡ prefixed log.now (answer_seen (sighted (M.sights m.now)) (known h.now (M.at m.now)) (branch_row (fixed_of h.now (M.at m.now)) word i.now)) }
{
    let Some(a) = h.register(i.rs1) else {
        return Looked::Missing(Place::Reg(i.rs1));
    };
    let Some(b) = h.register(i.rs2) else {
        return Looked::Missing(Place::Reg(i.rs2));
    };
    if taken(i.op, a, b) {
        jump(h, m, word, None, h.pc.wrapping_add(i.imm), log)
    } else {
        Looked::Does(retire(h.pc, word, None))
    }
}

/// A load from a physical address.
#[tactic(auto, unfolding(crate::specs::Machine::load_at))]
fn load_at<M: Sighted>(h: &Hart, m: &M, word: u32, i: &Instr, pa: u32, log: &mut Accesses) -> Looked
    requires rd { i.now.rd < 32 }
    requires aligned { pa % size_of i.now.op ≡ 0 }
    requires there { is_there (M.at m.now (pa / 4)) ≡ true }
    requires room { length log.old < 8 }
    ensures sound { IsSound h.now.privilege h.now.csrs result }
    ensures words { All IsInWord log.old → All IsInWord log.new }
    ensures answer { looked log.new result ≡ prefixed log.old (answer_seen (sighted (M.sights m.now)) (known h.now (M.at m.now)) (load_at (fixed_of h.now (M.at m.now)) word i.now pa)) }
{
    let size = size_of(i.op);
    match word_of(m, pa) {
        Seen::Vacant => unreachable!(),
        Seen::Untouched => Looked::Missing(Place::Word(pa - pa % 4)),
        Seen::Known(data) => {
            let value = part(data, pa, size);
            log.push(Access {
                role: Role::Load,
                addr: pa,
                size,
                value,
            });
            Looked::Does(retire(h.pc, word, rd_of(i.rd, extend(i.op, value))))
        }
    }
}

/// A load from any address.
fn load_from<M: Sighted>(
    h: &Hart,
    m: &M,
    word: u32,
    i: &Instr,
    addr: u32,
    log: &mut Accesses,
) -> Looked
    requires rd { i.now.rd < 32 }
    requires room { length log.old ≤ 5 }
    ensures sound { IsSound h.now.privilege h.now.csrs result }
    ensures words { All IsInWord log.old → All IsInWord log.new }
    ensures answer { looked log.new result ≡ prefixed log.old (answer_seen (sighted (M.sights m.now)) (known h.now (M.at m.now)) (load_from (fixed_of h.now (M.at m.now)) word i.now addr)) }
{
    if addr % u32::from(size_of(i.op)) != 0 {
        return trap(h, m, word, Cause::LoadMisaligned, addr, log);
    }
    match reach(h, m, word, data_view(h, m), Kind::Load, addr, log) {
        Ok(pa) => load_at(h, m, word, i, pa, log),
        Err(looked) => looked,
    }
}

/// A load.
#[tactic(auto, unfolding(crate::specs::Machine::load_row))]
fn load<M: Sighted>(h: &Hart, m: &M, word: u32, i: &Instr, log: &mut Accesses) -> Looked
    requires ranges { IsInRange i.now }
    requires room { length log.old ≤ 5 }
    ensures sound { IsSound h.now.privilege h.now.csrs result }
    ensures words { All IsInWord log.old → All IsInWord log.new }
    ensures answer { looked log.new result ≡ prefixed log.old (answer_seen (sighted (M.sights m.now)) (known h.now (M.at m.now)) (load_row (fixed_of h.now (M.at m.now)) word i.now)) }
{
    match h.register(i.rs1) {
        None => Looked::Missing(Place::Reg(i.rs1)),
        Some(a) => load_from(h, m, word, i, a.wrapping_add(i.imm), log),
    }
}

/// A store of a value's low bytes to a physical address.
#[tactic(auto, unfolding(crate::specs::Machine::store_at))]
fn store_at<M: Sighted>(
    h: &Hart,
    m: &M,
    word: u32,
    i: &Instr,
    value: u32,
    pa: u32,
    log: &mut Accesses,
) -> Looked
    requires aligned { pa % size_of i.now.op ≡ 0 }
    requires there { is_there (M.at m.now (pa / 4)) ≡ true }
    requires room { length log.old < 8 }
    ensures sound { IsSound h.now.privilege h.now.csrs result }
    ensures words { All IsInWord log.old → All IsInWord log.new }
    ensures answer { looked log.new result ≡ prefixed log.old (answer_seen (sighted (M.sights m.now)) (known h.now (M.at m.now)) (store_at (fixed_of h.now (M.at m.now)) word i.now value pa)) }
{
    let size = size_of(i.op);
    match word_of(m, pa) {
        Seen::Vacant => unreachable!(),
        Seen::Untouched => Looked::Missing(Place::Word(pa - pa % 4)),
        Seen::Known(_) => {
            log.push(Access {
                role: Role::Store,
                addr: pa,
                size,
                value: low_bytes(value, size),
            });
            Looked::Does(retire(h.pc, word, None))
        }
    }
}

/// A store of a value's low bytes at any address.
fn store_to<M: Sighted>(
    h: &Hart,
    m: &M,
    word: u32,
    i: &Instr,
    addr: u32,
    value: u32,
    log: &mut Accesses,
) -> Looked
    requires { length log.old ≤ 5 }
    ensures sound { IsSound h.now.privilege h.now.csrs result }
    ensures words { All IsInWord log.old → All IsInWord log.new }
    ensures answer { looked log.new result ≡ prefixed log.old (answer_seen (sighted (M.sights m.now)) (known h.now (M.at m.now)) (store_to (fixed_of h.now (M.at m.now)) word i.now addr value)) }
{
    if addr % u32::from(size_of(i.op)) != 0 {
        return trap(h, m, word, Cause::StoreMisaligned, addr, log);
    }
    match reach(h, m, word, data_view(h, m), Kind::Store, addr, log) {
        Ok(pa) => store_at(h, m, word, i, value, pa, log),
        Err(looked) => looked,
    }
}

/// A store.
#[tactic(auto, unfolding(crate::specs::Machine::store_row))]
fn store<M: Sighted>(h: &Hart, m: &M, word: u32, i: &Instr, log: &mut Accesses) -> Looked
    requires ranges { IsInRange i.now }
    requires room { length log.old ≤ 5 }
    ensures sound { IsSound h.now.privilege h.now.csrs result }
    ensures words { All IsInWord log.old → All IsInWord log.new }
    ensures answer { looked log.new result ≡ prefixed log.old (answer_seen (sighted (M.sights m.now)) (known h.now (M.at m.now)) (store_row (fixed_of h.now (M.at m.now)) word i.now)) }
{
    let Some(a) = h.register(i.rs1) else {
        return Looked::Missing(Place::Reg(i.rs1));
    };
    let Some(b) = h.register(i.rs2) else {
        return Looked::Missing(Place::Reg(i.rs2));
    };
    store_to(h, m, word, i, a.wrapping_add(i.imm), b, log)
}

/// What an instruction does.
#[tactic(auto, using(crate::proofs::Prefixes::prefixed_none), unfolding(crate::specs::Machine::upper_row, crate::specs::Machine::upper_pc_row, crate::specs::Machine::jump_row, crate::specs::Machine::fence_row))]
fn perform<M: Sighted>(h: &Hart, m: &M, word: u32, i: &Instr, log: &mut Accesses) -> Looked
    requires ranges { IsInRange i.now }
    requires room { length log.old ≤ 5 }
    ensures sound { IsSound h.now.privilege h.now.csrs result }
    ensures words { All IsInWord log.old → All IsInWord log.new }
    ensures answer { looked log.new result ≡ prefixed log.old (answer_seen (sighted (M.sights m.now)) (known h.now (M.at m.now)) (effect (row_of i.now.op) (fixed_of h.now (M.at m.now)) word i.now)) }
{
    match i.op {
        Op::Lui => Looked::Does(retire(h.pc, word, rd_of(i.rd, i.imm))),
        Op::Auipc => Looked::Does(retire(h.pc, word, rd_of(i.rd, h.pc.wrapping_add(i.imm)))),
        Op::Fence => Looked::Does(retire(h.pc, word, None)),
        Op::Jal => {
            let rd = rd_of(i.rd, h.pc.wrapping_add(4));
            jump(h, m, word, rd, h.pc.wrapping_add(i.imm), log)
        }
        Op::Jalr => jump_register(h, m, word, i, log),
        Op::Beq | Op::Bne | Op::Blt | Op::Bge | Op::Bltu | Op::Bgeu => branch(h, m, word, i, log),
        Op::Lb | Op::Lh | Op::Lw | Op::Lbu | Op::Lhu => load(h, m, word, i, log),
        Op::Sb | Op::Sh | Op::Sw => store(h, m, word, i, log),
        Op::Addi | Op::Slti | Op::Sltiu | Op::Xori | Op::Ori | Op::Andi => immediate(
            h, m, word, i, log,
        ),
        Op::Slli | Op::Srli | Op::Srai => immediate(h, m, word, i, log),
        Op::Add | Op::Sub | Op::Sll | Op::Slt | Op::Sltu => registers(h, m, word, i, log),
        Op::Xor | Op::Srl | Op::Sra | Op::Or | Op::And => registers(h, m, word, i, log),
        Op::Mul | Op::Mulh | Op::Mulhsu | Op::Mulhu => registers(h, m, word, i, log),
        Op::Div | Op::Divu | Op::Rem | Op::Remu => registers(h, m, word, i, log),
        Op::Ecall => call(h, m, word, log),
        Op::Ebreak => trap(h, m, word, Cause::Breakpoint, h.pc, log),
        Op::Csrrw | Op::Csrrs | Op::Csrrc => csr_register(h, m, word, i, log),
        Op::Csrrwi | Op::Csrrsi | Op::Csrrci => csr_immediate(h, m, word, i, log),
        Op::Mret => return_from_machine(h, m, word, log),
        Op::Sret => return_from_supervisor(h, m, word, log),
        Op::SfenceVma => fence_addresses(h, m, word, log),
        Op::Illegal => refuse(h, m, word, log),
    }
}

/// What the instruction word does.
#[tactic(auto, unfolding(crate::specs::Machine::instruction))]
pub fn execute<M: Sighted>(h: &Hart, m: &M, word: u32, log: &mut Accesses) -> Looked
    requires { length log.old ≤ 5 }
    ensures sound { IsSound h.now.privilege h.now.csrs result }
    ensures words { All IsInWord log.old → All IsInWord log.new }
    ensures answer { looked log.new result ≡ prefixed log.old (answer_seen (sighted (M.sights m.now)) (known h.now (M.at m.now)) (instruction (fixed_of h.now (M.at m.now)) word (decoded word))) }
{
    match decode(word) {
        Some(i) => perform(h, m, word, &i, log),
        None => Looked::Outside,
    }
}
