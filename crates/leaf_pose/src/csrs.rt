// The cases of CSR instructions.

ghost use Rattle.std.specs.Prelude.{false, ◌≡◌, ◌∷◌, ◌++◌, [], true, length, IfOk, OnOk};
ghost use Rattle.rv_isa.specs.Numbers.{op_number};
ghost use Rattle.rv_isa.specs.Table.{row_of};
ghost use Rattle.rv_csr.specs.Table.{registers};
ghost use Rattle.fd_prob.specs.Fitting.{IsCase};
ghost use Rattle.leaf_link.specs.Cases.{all_judged, case_at, domain};
ghost use Rattle.leaf_link.specs.Turns.{is_small};
ghost use Rattle.leaf_link.specs.Values.{has_csr_operand};
ghost use Rattle.rv_script.specs.Lists.{HasItem};
ghost use Rattle.leaf_csrs.specs.Usages.{usages_of};
ghost use Rattle.leaf_stand.specs.Posed.{FitsSame, allows, stand_cases, stand_ways};
ghost use Rattle.data_goals.specs.Goals.{IsCut};
ghost use Rattle.leaf_stand.specs.Relations.{are_between};
ghost use Rattle.data_bytes.specs.Sets.{IsSetOf};
ghost use Rattle.leaf_stand.specs.Sets.{AreDomains};
ghost use Rattle.leaf_stand.specs.Stands.{open_at, shape_at, turn_of};
ghost use Rattle.fd_prob.specs.declared.slot.TheConstants.{SLOTS};
ghost use Rattle.leaf_pose.specs.Internal.Csrs.{IsListed, access_case, access_rels, access_test, access_way, end_of, register_cases, usage_cases, writes_rel};
ghost use Rattle.leaf_pose.specs.Posed.{Adds};

use crate::relations::push_sources;
use crate::shaped::Shaped;
use dom_set::{OutOfMemory, Set};
use fd_prob::{Case, Items, Rel, SLOTS, Slot};
use leaf_csrs::{Usage, denied_are_refused, granted_are_usages, refused_cut, usage_cut, usages_of};
use leaf_link::domains_are_of_operations;
use leaf_stand::{End, Shape, Stand, push_atoms};
use rv_csr::{Cause, REGISTERS, Register};
use rv_isa::Op;
use std::alloc::Global;
use tpl_ast::Atom;

/// An access of an instruction to a CSR: how it uses which register, or that it is refused, by what it accesses or since
/// it writes what may only be read.
#[derive(Clone, Copy)]
pub enum Access {
    Granted(Register, Usage),
    Refused(bool),
}

/// The most values of a source register that may be started for a CSR with few legal ones.
const MOST_SOURCES: u64 = 4096;

impl Access {
    fn end(self) -> End
        ensures { result ≡ end_of self }
    {
        match self {
            Access::Granted(_, _) => End::Retires,
            Access::Refused(_) => End::Traps(Cause::Illegal),
        }
    }
}

/// What an access says of a variable.
fn cut_of(
    alloc: Global,
    stand: &Stand,
    op: Op,
    access: Access,
    few: bool,
    slot: Slot,
) -> Result<Option<Set>, OutOfMemory>
    requires few { few ≡ is_small (turn_of stand.now).sources }
    ensures { IfOk result (IsCut (access_test stand.now op access slot)) }
{
    match access {
        Access::Granted(register, usage) => {
            usage_cut(alloc, stand, op, register, usage, slot, few)
        }
        Access::Refused(written) => refused_cut(alloc, stand, op, written, slot),
    }
}

/// The domain of a variable.
fn access_domain(
    alloc: Global,
    stand: &Stand,
    leaf: &[Atom],
    op: Op,
    access: Access,
    few: bool,
    slot: Slot,
) -> Result<Set, OutOfMemory>
    requires csr { has_csr_operand (row_of op) ≡ true }
    requires few { few ≡ is_small (turn_of stand.now).sources }
    ensures { IfOk result (IsSetOf (domain (turn_of stand.now) 0 leaf.now op (access_way stand.now op access) slot)) }
{
    let shape = Shape {
        op,
        end: access.end(),
        reaches: false,
    };
    let open = stand.open_domain(alloc, leaf, shape, slot)?;
    match cut_of(alloc, stand, op, access, few, slot)? {
        Some(cut) => Ok(open.and(alloc, &cut)?),
        None => Ok(open),
    }
}

/// The domains of all variables, in their order.
fn access_domains(
    alloc: Global,
    stand: &Stand,
    leaf: &[Atom],
    op: Op,
    access: Access,
    few: bool,
) -> Result<Vec<Set>, OutOfMemory>
    requires csr { has_csr_operand (row_of op) ≡ true }
    requires few { few ≡ is_small (turn_of stand.now).sources }
    ensures each { IfOk result (λ doms. AreDomains (domain (turn_of stand.now) 0 leaf.now op (access_way stand.now op access)) SLOTS doms.items) }
    ensures length { IfOk result (λ doms. length doms.items ≡ 14) }
{
    let mut doms = Vec::new(alloc);
    for slot in SLOTS {
        doms.push(access_domain(alloc, stand, leaf, op, access, few, slot)?)?;
    }
    Ok(doms)
}

/// What is written, if anything is, is legal.
fn push_writes(rels: &mut Items<Rel>, access: Access) -> Result<(), OutOfMemory>
    ensures { OnOk result (rels.new ≡ rels.old ++ writes_rel access) }
{
    if matches!(access, Access::Granted(_, _)) {
        rels.push(Rel::Writes)?;
    }
    Ok(())
}

fn access_relations(
    alloc: Global,
    stand: &Stand,
    leaf: &[Atom],
    op: Op,
    access: Access,
) -> Result<Items<Rel>, OutOfMemory>
    ensures { IfOk result (λ rels. rels ≡ access_rels stand.now leaf.now op access) }
{
    let shape = Shape {
        op,
        end: access.end(),
        reaches: false,
    };
    let mut rels = Items::new(alloc);
    push_sources(alloc, stand, &mut rels, shape)?;
    push_atoms(&mut rels, leaf)?;
    push_writes(&mut rels, access)?;
    Ok(rels)
}

/// The case of an access.
fn case_of(
    alloc: Global,
    stand: &Stand,
    leaf: &[Atom],
    op: Op,
    access: Access,
    few: bool,
) -> Result<Case, OutOfMemory>
    requires csr { has_csr_operand (row_of op) ≡ true }
    requires few { few ≡ is_small (turn_of stand.now).sources }
    requires listed { IsListed stand.now op access }
    requires judged { all_judged (shape_at (record { op = op; end = end_of access; reaches = false })) leaf.now ≡ true }
    requires between { are_between leaf.now ≡ true }
    ensures shape { IfOk result IsCase }
    ensures number { IfOk result (λ c. c.op ≡ op_number op) }
    ensures fits { IfOk result (λ c. FitsSame (c ∷ []) (case_at (turn_of stand.now) 0 leaf.now op (access_way stand.now op access) ∷ [])) }
{
    domains_are_of_operations();
    granted_are_usages();
    let doms = access_domains(alloc, stand, leaf, op, access, few)?;
    let rels = access_relations(alloc, stand, leaf, op, access)?;
    Ok(Case {
        op: op.number(),
        doms: Items::from_vec(doms),
        rels,
    })
}

/// Appends the case of an access, where it is posed.
fn push_access(
    alloc: Global,
    stand: &Stand,
    shaped: &mut Shaped,
    leaf: &[Atom],
    op: Op,
    access: Access,
    few: bool,
) -> Result<(), OutOfMemory>
    requires csr { has_csr_operand (row_of op) ≡ true }
    requires few { few ≡ is_small (turn_of stand.now).sources }
    requires listed { IsListed stand.now op access }
    requires between { are_between leaf.now ≡ true }
    requires allowed { allows stand.now leaf.now op ≡ true }
    ensures { OnOk result (Adds stand.now leaf.now shaped.old shaped.new (access_case stand.now leaf.now op access)) }
{
    domains_are_of_operations();
    granted_are_usages();
    denied_are_refused();
    let shape = Shape {
        op,
        end: access.end(),
        reaches: false,
    };
    if !stand.is_posed(leaf, shape) {
        return Ok(());
    }
    let case = case_of(alloc, stand, leaf, op, access, few)?;
    shaped.push(case, shape)?;
    Ok(())
}

/// Appends the cases of usages of a register.
fn push_usages(
    alloc: Global,
    stand: &Stand,
    shaped: &mut Shaped,
    leaf: &[Atom],
    op: Op,
    register: Register,
    usages: &[Usage],
    few: bool,
) -> Result<(), OutOfMemory>
    requires csr { has_csr_operand (row_of op) ≡ true }
    requires few { few ≡ is_small (turn_of stand.now).sources }
    requires register { HasItem registers register }
    requires usages { usages.now ≡ usages_of stand.now op register }
    requires between { are_between leaf.now ≡ true }
    requires allowed { allows stand.now leaf.now op ≡ true }
    ensures { OnOk result (Adds stand.now leaf.now shaped.old shaped.new (usage_cases stand.now leaf.now op register usages.now)) }
{
    for usage in usages {
        let access = Access::Granted(register, *usage);
        push_access(alloc, stand, shaped, leaf, op, access, few)?;
    }
    Ok(())
}

/// Appends the cases in which a register is used.
fn push_registers(
    alloc: Global,
    stand: &Stand,
    shaped: &mut Shaped,
    leaf: &[Atom],
    op: Op,
    few: bool,
) -> Result<(), OutOfMemory>
    requires csr { has_csr_operand (row_of op) ≡ true }
    requires few { few ≡ is_small (turn_of stand.now).sources }
    requires between { are_between leaf.now ≡ true }
    requires allowed { allows stand.now leaf.now op ≡ true }
    ensures { OnOk result (Adds stand.now leaf.now shaped.old shaped.new (register_cases stand.now leaf.now op registers)) }
{
    for register in REGISTERS {
        let usages = usages_of(stand, op, register);
        push_usages(alloc, stand, shaped, leaf, op, register, usages, few)?;
    }
    Ok(())
}

/// Whether the atoms leave a source register so few values that an untouched one may be the source of any write.
fn has_few_sources(stand: &Stand) -> bool
    ensures { result ≡ is_small (turn_of stand.now).sources }
{
    stand.sources.element_laws();
    stand.sources.size() <= MOST_SOURCES
}

/// Appends the cases of a CSR instruction.
pub fn push_csrs(
    alloc: Global,
    stand: &Stand,
    shaped: &mut Shaped,
    leaf: &[Atom],
    op: Op,
) -> Result<(), OutOfMemory>
    requires csr { has_csr_operand (row_of op) ≡ true }
    requires between { are_between leaf.now ≡ true }
    requires allowed { allows stand.now leaf.now op ≡ true }
    ensures { OnOk result (Adds stand.now leaf.now shaped.old shaped.new (stand_cases stand.now leaf.now op (stand_ways stand.now op))) }
{
    domains_are_of_operations();
    granted_are_usages();
    denied_are_refused();
    let few = has_few_sources(stand);
    push_access(alloc, stand, shaped, leaf, op, Access::Refused(false), few)?;
    push_access(alloc, stand, shaped, leaf, op, Access::Refused(true), few)?;
    push_registers(alloc, stand, shaped, leaf, op, few)?;
    Ok(())
}
