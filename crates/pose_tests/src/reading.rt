// What stands in the rows of worked leaves. A row that can't be read ends the test.

use data_bytes::DataBytes;
use data_goals::{Accesses, DataEnd, DataWay};
use dom_set::{OutOfMemory, Set};
use leaf_pose::Name;
use rv_csr::Cause;
use rv_isa::{OPS, name_of};
use std::alloc::Global;
use std::process::Abort;
use tpl_ast::{Atom, Var};

/// A number in hexadecimal.
pub fn number(rt: &impl Abort, text: &str) -> u32 {
    u32::from_str_radix(text, 16).expect(rt, text)
}

/// A number in decimal.
pub fn count(rt: &impl Abort, text: &str) -> u64 {
    u64::from_str_radix(text.trim(), 10).expect(rt, text)
}

pub fn one(alloc: Global, value: u32) -> Result<Set, OutOfMemory> {
    Set::from_ranges(alloc, &[(value, value)], 1)
}

/// The ways of addresses that are not translated: those of these bytes lead to themselves, all others fail.
fn ways(alloc: Global, bytes: &[(u32, u32)], cause: Cause) -> Result<Vec<DataWay>, OutOfMemory> {
    let there = Set::from_ranges(alloc, bytes, 1)?;
    let outside = Set::all(alloc)?.minus(alloc, &there)?;
    let mut ways = Vec::new(alloc);
    ways.push(DataWay {
        ea: there,
        first: one(alloc, 0)?,
        second: one(alloc, 0)?,
        apart: false,
        end: DataEnd::At {
            base: 0,
            mask: u32::MAX,
        },
    })?;
    ways.push(DataWay {
        ea: outside,
        first: one(alloc, 0)?,
        second: one(alloc, 0)?,
        apart: false,
        end: DataEnd::Fails(cause),
    })?;
    Ok(ways)
}

/// What loads and stores may do with a memory of two frames: 80000000 to 80000fff are known and may not be stored, 80001000
/// to 80001fff have no value yet.
pub fn two_frames(alloc: Global) -> Result<Accesses, OutOfMemory> {
    let frames = [(0x8000_0000, 0x8000_1fff)];
    let bytes = DataBytes {
        known: Set::from_ranges(alloc, &[(0x8000_0000, 0x8000_0fff)], 1)?,
        fresh: Set::from_ranges(alloc, &[(0x8000_1000, 0x8000_1fff)], 1)?,
        outside: Set::from_ranges(alloc, &[(0, 0x7fff_ffff), (0x8000_2000, u32::MAX)], 1)?,
        not_loaded: Set::new(alloc),
        not_stored: Set::from_ranges(alloc, &[(0x8000_0000, 0x8000_0fff)], 1)?,
    };
    Ok(Accesses {
        bytes,
        walked: Set::new(alloc),
        pages: Set::all(alloc)?,
        firsts: one(alloc, 0)?,
        seconds: one(alloc, 0)?,
        loads: ways(alloc, &frames, Cause::LoadAccess)?,
        stores: ways(alloc, &frames, Cause::StoreAccess)?,
    })
}

/// The number of the operation of a name.
fn operation(rt: &impl Abort, name: &str) -> u32 {
    let mut found = None;
    for op in OPS {
        if name_of(op) == name.as_bytes() {
            found = Some(op as u8);
        }
    }
    u32::from(found.expect(rt, name))
}

fn variable(rt: &impl Abort, name: &str) -> Var {
    match name {
        "op" => Var::Op,
        "rs1" => Var::Rs1,
        "rs2" => Var::Rs2,
        "rd" => Var::Rd,
        "imm" => Var::Imm,
        "a" => Var::A,
        "b" => Var::B,
        "target" => Var::Target,
        "ea" => Var::Ea,
        "pa" => Var::Pa,
        "outcome" => Var::Outcome,
        _ => panic!(rt; "no variable: {}", name),
    }
}

/// A value: the name of an operation or a number.
fn value(rt: &impl Abort, var: Var, text: &str) -> u32 {
    match var {
        Var::Op => operation(rt, text),
        _ => number(rt, text),
    }
}

/// An atom: `imm=7` and `imm!7` for in and not in, `target@0` for the name with this place, `a~b` and `a^b` for the
/// same and for different values, `taken` and `untaken`.
pub fn atom(rt: &impl Abort, alloc: Global, text: &str) -> Result<Atom, OutOfMemory> {
    if text == "taken" {
        return Ok(Atom::Taken);
    }
    if text == "untaken" {
        return Ok(Atom::NotTaken);
    }
    if let Some((name, other)) = text.split_once('~') {
        return Ok(Atom::Same(variable(rt, name), variable(rt, other)));
    }
    if let Some((name, other)) = text.split_once('^') {
        return Ok(Atom::Differ(variable(rt, name), variable(rt, other)));
    }
    valued(rt, alloc, text)
}

fn valued(rt: &impl Abort, alloc: Global, text: &str) -> Result<Atom, OutOfMemory> {
    if let Some((name, place)) = text.split_once('@') {
        return Ok(Atom::Is(variable(rt, name), number(rt, place)));
    }
    if let Some((name, unwanted)) = text.split_once('!') {
        let var = variable(rt, name);
        return Ok(Atom::NotIn(var, one(alloc, value(rt, var, unwanted))?));
    }
    let (name, wanted) = text.split_once('=').expect(rt, text);
    let var = variable(rt, name);
    Ok(Atom::In(var, one(alloc, value(rt, var, wanted))?))
}

/// Atoms, one after another, or `-` for none.
pub fn atoms(rt: &impl Abort, alloc: Global, text: &str) -> Result<Vec<Atom>, OutOfMemory> {
    let mut leaf = Vec::new(alloc);
    if text.trim() == "-" {
        return Ok(leaf);
    }
    for word in text.split_whitespace() {
        leaf.push(atom(rt, alloc, word)?)?;
    }
    Ok(leaf)
}

/// The vectors of a row: the words `vector=80000200`.
pub fn vectors(rt: &impl Abort, alloc: Global, known: &str) -> Result<Set, OutOfMemory> {
    let mut set = Set::new(alloc);
    for word in known.split_whitespace() {
        if let Some(vector) = word.strip_prefix("vector=") {
            set = one(alloc, number(rt, vector))?;
        }
    }
    Ok(set)
}

/// The sets of a row's names: that of the value alone, for `name=80000000` and for `open=5`.
pub fn name_sets(rt: &impl Abort, alloc: Global, known: &str) -> Result<Vec<Set>, OutOfMemory> {
    let mut sets = Vec::new(alloc);
    for word in known.split_whitespace() {
        if let Some(value) = word.strip_prefix("name=") {
            sets.push(one(alloc, number(rt, value))?)?;
        }
        if let Some(value) = word.strip_prefix("open=") {
            sets.push(one(alloc, number(rt, value))?)?;
        }
    }
    Ok(sets)
}

/// The names of a row with their sets: `name=80000000` for one with this value, and `open=5` for one that is not bound.
pub fn names<'t>(
    rt: &impl Abort,
    alloc: Global,
    known: &str,
    sets: &'t [Set],
) -> Result<Vec<Name<'t>>, OutOfMemory> {
    let mut list = Vec::new(alloc);
    for word in known.split_whitespace() {
        let place = list.len();
        if let Some(bound) = word.strip_prefix("name=") {
            let value = Some(number(rt, bound));
            let set = sets.get(place).expect(rt, bound);
            list.push(Name { value, set })?;
        }
        if let Some(open) = word.strip_prefix("open=") {
            let set = sets.get(place).expect(rt, open);
            list.push(Name { value: None, set })?;
        }
    }
    Ok(list)
}
