// The cases of loads and stores.

ghost use Rattle.std.specs.Prelude.{◌≡◌, ℕ, ◌∷◌, ◌++◌, [], ◌&&◌, Bool, true, length, IfOk, OnOk, Option, Some as SomeOf};
ghost use Rattle.rv_isa.specs.Numbers.{op_number};
ghost use Rattle.tpl_ast.specs.declared.template.Var.{Var as AVar};
ghost use Rattle.fd_prob.specs.declared.slot.Slot.{Slot as ASlot};
ghost use Rattle.fd_prob.specs.declared.slot.TheConstants.{SLOTS};
ghost use Rattle.fd_prob.specs.Fitting.{IsCase};
ghost use Rattle.data_goals.specs.declared.accesses.Accesses.{Accesses as AnAccesses};
ghost use Rattle.data_goals.specs.Goals.{AreTargets, IsCut, AreAddressCuts, goal_way, goals_by, ways_by, ways_for, ways_through};
ghost use Rattle.leaf_link.specs.Cases.{all_judged, all_tests, case_at};
ghost use Rattle.leaf_stand.specs.Kinds.{kind_of};
ghost use Rattle.leaf_stand.specs.Posed.{FitsSame, allows, is_data, stand_cases, ways_at};
ghost use Rattle.leaf_stand.specs.Relations.{are_between};
ghost use Rattle.data_bytes.specs.Sets.{IsSetOf};
ghost use Rattle.leaf_stand.specs.Sets.{AreDomains};
ghost use Rattle.leaf_stand.specs.Stands.{shape_at, turn_of};
ghost use Rattle.leaf_pose.specs.Goals.{AreGoalsOf, IsAimed, IsGoalOf, entered_at, goal_rels, goal_shape, near_domain, place_rel, place_rels};
ghost use Rattle.leaf_pose.specs.Posed.{Adds};

use crate::relations::push_sources;
use crate::shaped::Shaped;
use data_goals::{
    Accesses, AddressCuts, DataEnd, DataWay, Goal, Targets, goal_apart, goal_cut, goal_leads,
    misses, targets_of,
};
use dom_set::{OutOfMemory, Set};
use fd_prob::{Case, Items, Rel, SLOTS, Slot};
use leaf_stand::{End, Shape, Stand, push_atoms};
use rv_isa::Op;
use std::alloc::Global;
use tpl_ast::{Atom, Var};

/// How a step of a load or store ends that goes there.
fn shape_of(op: Op, end: DataEnd, goal: Goal) -> Shape
    ensures { result ≡ goal_shape op end goal }
{
    match goal.cause(op, end) {
        Some(cause) => Shape {
            op,
            end: End::Traps(cause),
            reaches: false,
        },
        None => Shape {
            op,
            end: End::Retires,
            reaches: true,
        },
    }
}

/// The words of a set that a cut leaves.
fn left_by(alloc: Global, set: Set, cut: Option<Set>) -> Result<Set, OutOfMemory>
    ensures { IfOk result (λ left. (test own : ℕ → Bool) → IsSetOf test set → IsCut own cut → IsSetOf (λ v. test v && own v) left) }
{
    match cut {
        Some(cut) => Ok(set.and(alloc, &cut)?),
        None => Ok(set),
    }
}

/// The domain of a variable of a stand's step, where a data access may start page table entries and its word.
fn open_domain(
    alloc: Global,
    stand: &Stand,
    leaf: &[Atom],
    shape: Shape,
    slot: Slot,
) -> Result<Set, OutOfMemory>
    ensures { IfOk result (IsSetOf (entered_at (turn_of stand.now) leaf.now shape slot)) }
{
    match slot {
        Slot::FirstPte | Slot::SecondPte | Slot::DataWord => Ok(Set::all(alloc)?),
        _ => Ok(stand.open_domain(alloc, leaf, shape, slot)?),
    }
}

/// The domain of a variable, but for the two indices of an address and where it leads.
fn goal_domain(
    alloc: Global,
    stand: &Stand,
    leaf: &[Atom],
    op: Op,
    way: &DataWay,
    goal: Goal,
    slot: Slot,
) -> Result<Set, OutOfMemory>
    ensures { IfOk result (IsSetOf (near_domain stand.now leaf.now op way.now goal slot)) }
{
    let shape = shape_of(op, way.end, goal);
    let open = open_domain(alloc, stand, leaf, shape, slot)?;
    let cut = goal_cut(alloc, op, way, goal, slot)?;
    let left = left_by(alloc, open, cut)?;
    Ok(left)
}

/// The domain of a variable, where that of the virtual address is known.
fn domain_beside(
    alloc: Global,
    stand: &Stand,
    leaf: &[Atom],
    op: Op,
    way: &DataWay,
    goal: Goal,
    ea: &Set,
    slot: Slot,
) -> Result<Set, OutOfMemory>
    ensures { IfOk result (λ set. IsSetOf (near_domain stand.now leaf.now op way.now goal ASlot.Ea) ea.now → IsSetOf (near_domain stand.now leaf.now op way.now goal slot) set) }
{
    match slot {
        Slot::Ea => Ok(ea.copy(alloc)?),
        _ => Ok(goal_domain(alloc, stand, leaf, op, way, goal, slot)?),
    }
}

/// The domains of all variables, in their order, where that of the virtual address is known.
fn goal_domains(
    alloc: Global,
    stand: &Stand,
    leaf: &[Atom],
    op: Op,
    way: &DataWay,
    goal: Goal,
    ea: &Set,
) -> Result<Vec<Set>, OutOfMemory>
    ensures each { IfOk result (λ doms. IsSetOf (near_domain stand.now leaf.now op way.now goal ASlot.Ea) ea.now → AreDomains (near_domain stand.now leaf.now op way.now goal) SLOTS doms.items) }
    ensures length { IfOk result (λ doms. length doms.items ≡ 14) }
{
    let mut doms = Vec::new(alloc);
    for slot in SLOTS {
        let set = domain_beside(alloc, stand, leaf, op, way, goal, ea, slot)?;
        doms.push(set)?;
    }
    Ok(doms)
}

/// Appends that the address is in a set, if there is one.
fn push_place(alloc: Global, rels: &mut Items<Rel>, place: &Option<Set>) -> Result<(), OutOfMemory>
    ensures { OnOk result (rels.new ≡ rels.old ++ place_rel place.now) }
{
    if let Some(set) = place {
        let own = set.copy(alloc)?;
        rels.push(Rel::In(Slot::Ea, own))?;
    }
    Ok(())
}

/// What the sources and the atoms say, that the address is the sum of the base and the immediate, and where it leads.
fn goal_relations(
    alloc: Global,
    stand: &Stand,
    leaf: &[Atom],
    shape: Shape,
    place: &AddressCuts,
) -> Result<Items<Rel>, OutOfMemory>
    ensures { IfOk result (λ rels. rels ≡ goal_rels stand.now leaf.now shape ++ place_rels place.now) }
{
    let mut rels = Items::new(alloc);
    push_sources(alloc, stand, &mut rels, shape)?;
    push_atoms(&mut rels, leaf)?;
    if shape.uses_address() {
        rels.push(Rel::Sum(Slot::A, Slot::Imm, Slot::Ea))?;
    }
    push_place(alloc, &mut rels, &place.apart)?;
    push_place(alloc, &mut rels, &place.leads)?;
    Ok(rels)
}

/// The case of a goal of a way, where the addresses that fit it are known, and which of them lead to its place.
fn case_of(
    alloc: Global,
    stand: &Stand,
    leaf: &[Atom],
    op: Op,
    way: &DataWay,
    goal: Goal,
    ea: &Set,
    place: &AddressCuts,
) -> Result<Case, OutOfMemory>
    requires kind { is_data (kind_of op) ≡ true }
    requires judged { all_judged (shape_at (goal_shape op way.now.end goal)) leaf.now ≡ true }
    requires between { are_between leaf.now ≡ true }
    ensures shape { IfOk result IsCase }
    ensures number { IfOk result (λ c. c.op ≡ op_number op) }
    ensures fits { IfOk result (λ c. (a : AnAccesses) → AreAddressCuts a op way.now (all_tests (turn_of stand.now) leaf.now AVar.Pa) goal place.now → IsSetOf (near_domain stand.now leaf.now op way.now goal ASlot.Ea) ea.now → FitsSame (c ∷ []) (case_at (turn_of stand.now) 0 leaf.now op (goal_way (turn_of stand.now) a leaf.now op way.now goal) ∷ [])) }
{
    let doms = goal_domains(alloc, stand, leaf, op, way, goal, ea)?;
    let rels = goal_relations(alloc, stand, leaf, shape_of(op, way.end, goal), place)?;
    Ok(Case {
        op: op.number(),
        doms: Items::from_vec(doms),
        rels,
    })
}

/// Whether no address leads there.
fn is_nowhere(leads: &Option<Set>) -> bool
    ensures { result ≡ true → leads.now ≡ SomeOf [] }
{
    match leads {
        Some(set) => set.is_empty(),
        None => false,
    }
}

/// Appends the case of a goal of a way, where it is posed and some address fits it.
fn push_goal(
    alloc: Global,
    stand: &Stand,
    shaped: &mut Shaped,
    leaf: &[Atom],
    op: Op,
    way: &DataWay,
    goal: Goal,
    targets: &Targets,
) -> Result<(), OutOfMemory>
    requires kind { is_data (kind_of op) ≡ true }
    requires between { are_between leaf.now ≡ true }
    requires allowed { allows stand.now leaf.now op ≡ true }
    ensures { OnOk result ((a : AnAccesses) → IsAimed stand.now leaf.now op a targets.now → IsGoalOf stand.now leaf.now op a way.now goal → Adds stand.now leaf.now shaped.old shaped.new (stand_cases stand.now leaf.now op (goal_way (turn_of stand.now) a leaf.now op way.now goal ∷ []))) }
{
    let shape = shape_of(op, way.end, goal);
    if !stand.is_posed(leaf, shape) {
        return Ok(());
    }
    let leads = goal_leads(alloc, way, goal, targets)?;
    if is_nowhere(&leads) {
        return Ok(());
    }
    let ea = goal_domain(alloc, stand, leaf, op, way, goal, Slot::Ea)?;
    if ea.is_empty() {
        return Ok(());
    }
    let apart = goal_apart(alloc, way, goal)?;
    let place = AddressCuts { apart, leads };
    let case = case_of(alloc, stand, leaf, op, way, goal, &ea, &place)?;
    shaped.push(case, shape)?;
    Ok(())
}

/// Appends the cases of the goals of a way.
fn push_way(
    alloc: Global,
    stand: &Stand,
    shaped: &mut Shaped,
    leaf: &[Atom],
    op: Op,
    way: &DataWay,
    targets: &Targets,
) -> Result<(), OutOfMemory>
    requires kind { is_data (kind_of op) ≡ true }
    requires between { are_between leaf.now ≡ true }
    requires allowed { allows stand.now leaf.now op ≡ true }
    ensures { OnOk result ((a : AnAccesses) → IsAimed stand.now leaf.now op a targets.now → AreGoalsOf stand.now leaf.now op a way.now → Adds stand.now leaf.now shaped.old shaped.new (stand_cases stand.now leaf.now op (ways_by (turn_of stand.now) a leaf.now op way.now (goals_by way.now.end)))) }
{
    match way.end {
        DataEnd::Fails(_) => {
            push_goal(alloc, stand, shaped, leaf, op, way, Goal::Fails, targets)?;
        }
        DataEnd::At { .. } => {
            push_goal(alloc, stand, shaped, leaf, op, way, Goal::Known, targets)?;
            push_goal(alloc, stand, shaped, leaf, op, way, Goal::Fresh, targets)?;
        }
    }
    Ok(())
}

/// Appends the cases of the goals of ways.
fn push_ways(
    alloc: Global,
    stand: &Stand,
    shaped: &mut Shaped,
    leaf: &[Atom],
    op: Op,
    ways: &[DataWay],
    targets: &Targets,
) -> Result<(), OutOfMemory>
    requires kind { is_data (kind_of op) ≡ true }
    requires between { are_between leaf.now ≡ true }
    requires allowed { allows stand.now leaf.now op ≡ true }
    ensures { OnOk result ((a : AnAccesses) → IsAimed stand.now leaf.now op a targets.now → ways.now ≡ ways_for a op → Adds stand.now leaf.now shaped.old shaped.new (stand_cases stand.now leaf.now op (ways_through (turn_of stand.now) a leaf.now op ways.now))) }
{
    for way in ways {
        push_way(alloc, stand, shaped, leaf, op, way, targets)?;
    }
    Ok(())
}

/// The physical addresses to which a load or store of a leaf may go.
fn aimed(
    alloc: Global,
    stand: &Stand,
    accesses: &Accesses,
    leaf: &[Atom],
    op: Op,
) -> Result<Targets, OutOfMemory>
    ensures { IfOk result (AreTargets accesses.now op (all_tests (turn_of stand.now) leaf.now AVar.Pa)) }
{
    let all = Set::all(alloc)?;
    let wanted = stand.passing(alloc, all, leaf, Var::Pa)?;
    let targets = targets_of(alloc, accesses, op, &wanted)?;
    Ok(targets)
}

/// Appends the cases of a load or store, where it is told what they may do.
pub fn push_data(
    alloc: Global,
    stand: &Stand,
    shaped: &mut Shaped,
    leaf: &[Atom],
    op: Op,
) -> Result<(), OutOfMemory>
    requires kind { is_data (kind_of op) ≡ true }
    requires between { are_between leaf.now ≡ true }
    requires allowed { allows stand.now leaf.now op ≡ true }
    ensures { OnOk result (Adds stand.now leaf.now shaped.old shaped.new (stand_cases stand.now leaf.now op (ways_at stand.now leaf.now op))) }
{
    let Some(accesses) = &stand.accesses else {
        return Ok(());
    };
    let targets = aimed(alloc, stand, accesses, leaf, op)?;
    let missing = misses(alloc);
    push_goal(
        alloc,
        stand,
        shaped,
        leaf,
        op,
        &missing,
        Goal::Misaligned,
        &targets,
    )?;
    push_ways(alloc, stand, shaped, leaf, op, accesses.ways(op), &targets)?;
    Ok(())
}
