// The step of an answer.
ghost use Rattle.std.specs.Prelude.{◌≡◌, ◌%◌, ◌^◌, ◌<◌, ℕ, length, OnOk, OnErr, IfOk};
ghost use Rattle.rv_script.specs.declared.place.Place.{Place as APlace};
ghost use Rattle.rv_hart.specs.Clauses.{IsFitRecord};
ghost use Rattle.part_state.specs.State.{here};
ghost use Rattle.leaf_link.specs.Answers.{values_in};
ghost use Rattle.leaf_link.specs.Placing.{IsInstruction};
ghost use Rattle.leaf_link.specs.Values.{instr_in};
ghost use Rattle.rv_script.specs.Logs.{enlarged, value_or};
ghost use Rattle.fd_prob.specs.declared.slot.Slot.TheVariants.{FirstPte as First};
ghost use Rattle.leaf_link.specs.Candidates.{registers_from};
ghost use Rattle.turn_laws.specs.Given.{known_at};
ghost use Rattle.leaf_turn.specs.Answers.{AreGiven, AreKept, IsPlayable, IsStill, IsTakenBy, is_at, new_at, second_of, started_with, value_started, walk_of, word_value};
ghost use Rattle.leaf_link.specs.FetchPlacing.{entry_value};

use crate::OutOfMemory;
use crate::entering::{data_view, root_address};
use crate::known::known_is_near;
use fd_prob::{Assignment, Slot};
use part_state::{Part, Probe};
use rv_hart::Record;
use rv_isa::{Instr, OPS, codec_laws, encode};
use rv_mem::{Seen, Words};
use rv_script::Place;
use sv_walk::{is_invalid, is_pointer, is_translated};
use turn_laws::{given_places_are_known, places_are_next, played_steps_are_next};

/// The instruction of an answer.
fn instruction(x: &Assignment) -> Instr
    requires { IsInstruction (values_in x.now) }
    ensures { result ≡ instr_in (values_in x.now) }
{
    Instr {
        op: OPS[x.value(Slot::Op) as usize],
        rd: x.value(Slot::Rd) as u8,
        rs1: x.value(Slot::Rs1) as u8,
        rs2: x.value(Slot::Rs2) as u8,
        imm: x.value(Slot::Imm),
        csr: x.value(Slot::Csr) as u16,
    }
}

/// How the fetch of a step ends, for the values of the words that the step starts.
#[derive(Clone, Copy)]
pub enum Fetch {
    /// The word is fetched from this physical address.
    From(u32),
    /// It fails; the root entry of its translation has this physical address.
    Fails(u64),
}

/// Where the page table entries of a data access stand.
#[derive(Clone, Copy)]
struct DataWalk {
    /// The physical address of the root entry.
    root: u64,
    /// The physical address of the second one, where the root entry is a pointer.
    second: Option<u64>,
}

/// Where the second entry of an address stands, if an entry is a pointer (Privileged, 4.3.2).
fn second_of(ea: u32, entry: u32) -> Option<u64>
    ensures { result ≡ second_of ea entry }
{
    if is_invalid(entry) || !is_pointer(entry) {
        return None;
    }
    Some(u64::from(entry >> 10) * 4096 + u64::from((ea >> 12) % 1024) * 4)
}

/// What the root entry at a physical address holds: it is known, or an answer's new one.
fn root_entry(part: &Part, root: u64, x: &Assignment) -> u32
    requires aligned { root % 4 ≡ 0 }
    requires near { root < 2 ^ 34 }
    ensures { (k : ℕ) → result ≡ value_or (known_at k (here part.now) (APlace.Word root)) (values_in x.now First) }
{
    known_is_near(part);
    let Ok(addr) = u32::try_from(root) else {
        return x.value(Slot::FirstPte);
    };
    match part.memory().word(addr) {
        Seen::Known(word) => word,
        Seen::Untouched | Seen::Vacant => x.value(Slot::FirstPte),
    }
}

/// Where the page table entries stand that the data access of an answer reads, if its address is translated.
fn walk_of(part: &Part, hart: u8, x: &Assignment) -> Option<DataWalk>
    requires { hart < length part.now.now.harts }
    ensures { result ≡ walk_of hart (here part.now) (values_in x.now) }
{
    let view = data_view(part, hart);
    if !is_translated(view) {
        return None;
    }
    let ea = x.value(Slot::Ea);
    let root = root_address(view, ea);
    let second = second_of(ea, root_entry(part, root, x));
    Some(DataWalk { root, second })
}

/// Whether an entry stands at an address.
fn is_at(at: Option<u64>, addr: u32) -> bool
    ensures { result ≡ is_at at addr }
{
    match at {
        None => false,
        Some(at) => u64::from(addr) == at,
    }
}

/// The value with which an answer starts a word of its data access: a page table entry or the data word.
fn word_value(x: &Assignment, walk: Option<DataWalk>, addr: u32) -> u32
    ensures { result ≡ word_value walk (values_in x.now) addr }
{
    match walk {
        None => x.value(Slot::DataWord),
        Some(walk) => {
            if u64::from(addr) == walk.root {
                x.value(Slot::FirstPte)
            } else if is_at(walk.second, addr) {
                x.value(Slot::SecondPte)
            } else {
                x.value(Slot::DataWord)
            }
        }
    }
}

/// The value with which an answer starts a place, where the word at `pa` is fetched: the fetched word or one of the data
/// access, the value of a source register, or the vector of a trap. A step that reads a CSR takes no trap, so where the
/// vector is 0 the value of a CSR is the old one.
fn value_started(x: &Assignment, walk: Option<DataWalk>, pa: u32, place: Place) -> u32
    requires { IsInstruction (values_in x.now) }
    ensures { result ≡ value_started walk (values_in x.now) pa place }
{
    match place {
        Place::Word(addr) => {
            if addr == pa {
                encode(&instruction(x))
            } else {
                word_value(x, walk, addr)
            }
        }
        Place::Reg(n) => {
            if u32::from(n) == x.value(Slot::Rs1) {
                x.value(Slot::A)
            } else {
                x.value(Slot::B)
            }
        }
        Place::Csr(_) => {
            if x.value(Slot::Vector) == 0 {
                x.value(Slot::OldCsr)
            } else {
                x.value(Slot::Vector)
            }
        }
    }
}

/// The value with which an answer starts a place, where the fetch fails: a page table entry or the vector of the trap.
fn entry_value(x: &Assignment, root: u64, place: Place) -> u32
    ensures { result ≡ entry_value (values_in x.now) root place }
{
    match place {
        Place::Word(addr) => {
            if u64::from(addr) == root {
                x.value(Slot::FirstPte)
            } else {
                x.value(Slot::SecondPte)
            }
        }
        Place::Reg(_) => 0,
        Place::Csr(_) => x.value(Slot::Vector),
    }
}

/// The value with which an answer starts a place.
fn started_with(x: &Assignment, walk: Option<DataWalk>, fetch: Fetch, place: Place) -> u32
    requires { IsInstruction (values_in x.now) }
    ensures { result ≡ started_with walk (values_in x.now) fetch place }
{
    match fetch {
        Fetch::From(pa) => value_started(x, walk, pa, place),
        Fetch::Fails(root) => entry_value(x, root, place),
    }
}

/// Gives the hart what an answer starts, place by place, as its next step asks for it.
fn give(part: &mut Part, hart: u8, fetch: Fetch, x: &Assignment) -> Result<(), OutOfMemory>
    requires hart { hart < length part.old.now.harts }
    requires playable { IsPlayable hart (here part.old) fetch (values_in x.now) }
    ensures given { OnOk result (AreGiven hart (values_in x.now) (here part.old) (here part.new)) }
    ensures kept { AreKept part.old part.new }
{
    places_are_next();
    given_places_are_known();
    part.is_test();
    let walk = walk_of(part, hart, x);
    // A step asks ten questions at most.
    let mut left = 10u8;
    loop {
        match part.probe(hart) {
            Probe::Missing(place) => {
                part.start_place(hart, place, started_with(x, walk, fetch, place))?;
                left -= 1;
            }
            Probe::Ready(_) | Probe::Outside | Probe::Clash(_) => return Ok(()),
        }
    }
}

/// The step of an answer.
#[derive(Drop)]
pub struct Step {
    pub record: Record,
    /// The registers before the step, those that it started among them.
    pub before: [Option<u32>; 32],
}

fn give_and_step(
    part: &mut Part,
    hart: u8,
    fetch: Fetch,
    x: &Assignment,
) -> Result<Step, OutOfMemory>
    requires hart { hart < length part.old.now.harts }
    requires playable { IsPlayable hart (here part.old) fetch (values_in x.now) }
    ensures taken { IfOk result (λ s. IsTakenBy hart (values_in x.now) s.record (here part.old) (here part.new)) }
    ensures before { IfOk result (λ s. s.before ≡ registers_from (enlarged (known_at hart (here part.old)) (new_at hart (here part.old) (values_in x.now))) 0 32) }
    ensures fit { IfOk result (λ s. IsFitRecord s.record) }
    ensures still { OnOk result (IsStill (here part.old) (here part.new)) }
    ensures kept { AreKept part.old part.new }
{
    played_steps_are_next();
    given_places_are_known();
    part.is_test();
    give(part, hart, fetch, x)?;
    let before = part.hart(hart).regs;
    let record = part.advance(hart)?;
    Ok(Step { record, before })
}

/// Starts the places of an answer and takes its step. A refusal changes nothing.
pub fn take(part: &mut Part, hart: u8, fetch: Fetch, x: &Assignment) -> Result<Step, OutOfMemory>
    requires hart { hart < length part.old.now.harts }
    requires playable { IsPlayable hart (here part.old) fetch (values_in x.now) }
    ensures taken { IfOk result (λ s. IsTakenBy hart (values_in x.now) s.record (here part.old) (here part.new)) }
    ensures before { IfOk result (λ s. s.before ≡ registers_from (enlarged (known_at hart (here part.old)) (new_at hart (here part.old) (values_in x.now))) 0 32) }
    ensures fit { IfOk result (λ s. IsFitRecord s.record) }
    ensures still { OnOk result (IsStill (here part.old) (here part.new)) }
    ensures kept { OnOk result (AreKept part.old part.new) }
    ensures refused { OnErr result (part.new ≡ part.old) }
{
    let mark = part.mark();
    match give_and_step(part, hart, fetch, x) {
        Ok(step) => Ok(step),
        Err(error) => {
            part.rollback(mark);
            Err(error)
        }
    }
}
