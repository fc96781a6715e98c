// The space of a problem.
ghost use Rattle.std.specs.Prelude.{◌≡◌, ◌==◌, All, IfSome, filter_map, find, map, option_map};
ghost use Rattle.rv_isa.specs.Fields.{has_address};
ghost use Rattle.rv_isa.specs.Table.{row_of};
ghost use Rattle.fd_prob.specs.Fitting.{IsCase, IsProblem};
ghost use Rattle.fd_prob.specs.Spaces.{access_space, allowed_case, counted_fields, is_access, numbers_from, operation_space, product_of, saturated, size_in, source_of, space, sum_of};

use crate::pages::pages_of;
use crate::problem::{Case, Problem};
use crate::slot::Slot;
use rv_isa::Op;

/// The fields whose values count: those of the format but rd, and no immediate of LUI, AUIPC and JAL.
fn counted_fields(op: Op) -> &'static [Slot]
    ensures { result.now ≡ counted_fields (row_of op) }
{
    match op {
        Op::Lui | Op::Auipc | Op::Jal => &[],
        Op::Beq | Op::Bne | Op::Blt | Op::Bge | Op::Bltu | Op::Bgeu | Op::Sb | Op::Sh | Op::Sw => {
            &[Slot::Rs1, Slot::Rs2, Slot::Imm]
        }
        Op::Jalr | Op::Lb | Op::Lh | Op::Lw | Op::Lbu | Op::Lhu => &[Slot::Rs1, Slot::Imm],
        Op::Addi | Op::Slti | Op::Sltiu | Op::Xori | Op::Ori | Op::Andi => &[Slot::Rs1, Slot::Imm],
        Op::Slli | Op::Srli | Op::Srai => &[Slot::Rs1, Slot::Imm],
        Op::Add | Op::Sub | Op::Sll | Op::Slt | Op::Sltu => &[Slot::Rs1, Slot::Rs2],
        Op::Xor | Op::Srl | Op::Sra | Op::Or | Op::And => &[Slot::Rs1, Slot::Rs2],
        Op::Mul | Op::Mulh | Op::Mulhsu | Op::Mulhu => &[Slot::Rs1, Slot::Rs2],
        Op::Div | Op::Divu | Op::Rem | Op::Remu => &[Slot::Rs1, Slot::Rs2],
        Op::SfenceVma => &[Slot::Rs1, Slot::Rs2],
        Op::Fence | Op::Illegal => &[Slot::Imm],
        Op::Csrrw | Op::Csrrs | Op::Csrrc => &[Slot::Rs1, Slot::Csr],
        Op::Csrrwi | Op::Csrrsi | Op::Csrrci => &[Slot::Imm, Slot::Csr],
        Op::Ecall | Op::Ebreak | Op::Mret | Op::Sret => &[],
    }
}

/// The product of the sizes of domains.
#[tactic(auto, using(crate::proofs::Products::step))]
fn product_of(case: &Case, fields: &[Slot]) -> u64
    requires { IsCase case.now }
    ensures { result ≡ saturated (product_of (map (size_in case.now) fields.now)) }
{
    let mut product: u64 = 1;
    for field in fields {
        product = product.saturating_mul(case.domain(*field).size());
    }
    product
}

/// What the values of rs1 count where they are written to a control and status register.
fn source_of(op: Op, values: u64) -> u64
    ensures { result ≡ source_of op values }
{
    match op {
        Op::Csrrw | Op::Csrrs | Op::Csrrc => { if values <= 4096 { values } else { 1 } }
        _ => 1,
    }
}

/// What the case counts where it is the first one of its operation.
#[tactic(auto, unfolding(crate::specs::Spaces::operation_space))]
fn operation_space(case: &Case) -> u64
    requires { IsCase case.now }
    ensures { result ≡ saturated (operation_space case.now) }
{
    let op = case.operation();
    let source = source_of(op, case.domain(Slot::A).size());
    product_of(case, counted_fields(op)).saturating_mul(source)
}

/// The first case of an operation.
pub fn first_case(cases: &[Case], op: u8) -> Option<&Case>
    requires { All IsCase cases.now }
    ensures first { option_map (λ c. c.now) result ≡ find (λ c. c.op == op) cases.now }
    ensures whole { IfSome result (λ c. IsCase c.now) }
{
    for case in cases {
        if case.op == op {
            return Some(case);
        }
    }
    None
}

/// The first case of an operation, where that has the operation in its domain.
#[tactic(auto, unfolding(crate::specs::Spaces::allowed_case))]
pub fn allowed_case(cases: &[Case], op: u8) -> Option<&Case>
    requires { All IsCase cases.now }
    ensures allowed { option_map (λ c. c.now) result ≡ allowed_case cases.now op }
    ensures whole { IfSome result (λ c. IsCase c.now) }
{
    match first_case(cases, op) {
        Some(case) => {
            if case.domain(Slot::Op).has(u32::from(case.op)) {
                Some(case)
            } else {
                None
            }
        }
        None => None,
    }
}

/// The sum of what each allowed operation counts.
fn operations_space(cases: &[Case]) -> u64
    requires { All IsCase cases.now }
    ensures { result ≡ saturated (sum_of (map operation_space (filter_map (allowed_case cases.now) (numbers_from 0 58)))) }
{
    let mut sum: u64 = 0;
    for op in 0..58 {
        if let Some(case) = allowed_case(cases, op) {
            sum = sum.saturating_add(operation_space(case));
        }
    }
    sum
}

/// Whether the operation is a load or store.
fn has_data_access(op: Op) -> bool
    ensures { result ≡ has_address (row_of op) }
{
    matches!(
        op,
        Op::Lb | Op::Lh | Op::Lw | Op::Lbu | Op::Lhu | Op::Sb | Op::Sh | Op::Sw
    )
}

/// The first case of the first allowed load or store.
fn first_access(cases: &[Case]) -> Option<&Case>
    requires { All IsCase cases.now }
    ensures first { option_map (λ c. c.now) result ≡ find is_access (filter_map (allowed_case cases.now) (numbers_from 0 58)) }
    ensures whole { IfSome result (λ c. IsCase c.now) }
{
    for op in 0..58 {
        if let Some(case) = allowed_case(cases, op) {
            if has_data_access(case.operation()) {
                return Some(case);
            }
        }
    }
    None
}

/// What loads and stores add.
fn access_space(p: &Problem) -> u64
    requires { IsProblem p.now }
    ensures { result ≡ saturated (access_space p.now) }
{
    match first_access(p.cases.as_slice()) {
        Some(case) => pages_of(case.domain(Slot::Ea)).saturating_mul(p.pairs),
        None => 0,
    }
}

/// The space of the problem, at most 2^64 - 1. For a fetch it is `pairs`. Else it is the sum, over the
/// operations that are in the domain of `Op` of their first case, of the product of the sizes of the
/// domains of rs1, rs2, imm and csr there, as the operation's format has them; with CSRRW, CSRRS and CSRRC
/// times the size of the domain of `A` where that is 4,096 at most; and, where one of these operations is
/// a load or store, the pages of 4,096 bytes with an element of the domain of `Ea` times `pairs`.
pub fn space(p: &Problem) -> u64
    requires { IsProblem p.now }
    ensures { result ≡ space p.now }
{
    if p.fetch {
        p.pairs
    } else {
        operations_space(p.cases.as_slice()).saturating_add(access_space(p))
    }
}
