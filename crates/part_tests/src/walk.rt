// A walk by chance over the calls of a test that is being made, beside a list of what was seen after each change.
use crate::seen::{assert_view, view_now};
use part_making::{Making, Told, View, folded};
use part_state::{OutOfMemory, Probe};
use rv_script::Place;
use std::alloc::Global;
use std::process::Abort;
use std::test::Fail;
use tpl_admit::{Dropped, Why};

/// Two harts, a page, and two names.
const TEXT: &str = "\
ram 0x80000000 0x80001000
pool 0x80000000
name first in {0..0xffffffff}
name second in {0..0xffffffff}
data 0x80000804 = 0x44332211
hart 0 {
start pc 0x80000000 priv m
reg x6 = 0x80000808
body {
}
}
hart 1 {
start pc 0x80000100 priv m
body {
}
}
";

/// `addi x5, x5, 1`, `sb x6, 0(x5)`, `lb x7, 0(x5)`, `sw x6, 0(x5)`, `lw x7, 0(x6)`, `mul x7, x6, x5`,
/// `csrrw x8, mscratch, x6`, `ecall`, `jal x0, -8`, `addi x6, x0, 8`, and no instruction.
const CODE: [u32; 11] = [
    0x0012_8293,
    0x0062_8023,
    0x0002_8383,
    0x0062_a023,
    0x0003_2383,
    0x0253_03b3,
    0x3403_1473,
    0x0000_0073,
    0xff9f_f06f,
    0x0080_0313,
    0x0000_0001,
];

/// Where data and code stand.
const ADDRESSES: [u32; 6] = [
    0x8000_0800,
    0x8000_0804,
    0x8000_0808,
    0x8000_0801,
    0x8000_0004,
    0x8000_0104,
];

/// The next number of a xorshift generator.
fn drawn(state: u32) -> u32 {
    let a = state ^ (state << 13);
    let b = a ^ (a >> 17);
    b ^ (b << 5)
}

/// A value for a place, by a number that was drawn.
fn value_for(place: Place, r: u32) -> u32 {
    match place {
        Place::Reg(_) => ADDRESSES[(r % 6) as usize],
        Place::Csr(_) => 0x8000_0000 + r % 64 * 4,
        Place::Word(addr) if addr < 0x8000_0400 => CODE[(r % 11) as usize],
        Place::Word(_) => r,
    }
}

/// Some place, by a number that was drawn.
fn some_place(r: u32) -> Place {
    match r % 4 {
        0 => Place::Reg((r / 4 % 9) as u8),
        1 => Place::Csr(0x340),
        2 => Place::Csr(0x305),
        _ => Place::Word(ADDRESSES[(r / 4 % 6) as usize]),
    }
}

/// What was done: nothing, a choice or a dropped bias by its number, or another change.
#[derive(Clone, Copy, PartialEq, Eq)]
enum Did {
    Nothing,
    Chose(u32),
    GaveUp(u32),
    Other,
}

/// Gives a place a value by chance. It has this value then.
fn give(
    rt: &impl Abort,
    making: &mut Making,
    hart: u8,
    place: Place,
    r: u32,
) -> Result<Did, OutOfMemory> {
    let value = value_for(place, r);
    let known = making.value_of(hart, place);
    if !making.give(hart, place, value)? {
        return Ok(Did::Nothing);
    }
    assert!(rt; known.is_none() && making.value_of(hart, place) == Some(value));
    Ok(Did::Other)
}

/// Does the next step of a hart, or gives the place that it lacks.
fn go(rt: &impl Abort, making: &mut Making, hart: u8, r: u32) -> Result<Did, OutOfMemory> {
    match making.probe(hart) {
        Some(Probe::Ready(_)) => match making.step(hart)? {
            Some(_) => Ok(Did::Other),
            None => Ok(Did::Nothing),
        },
        Some(Probe::Missing(place)) => give(rt, making, hart, place, r),
        _ => Ok(Did::Nothing),
    }
}

fn bind(making: &mut Making, name: u32, value: u32) -> Result<Did, OutOfMemory> {
    if making.bind(name, value)? {
        Ok(Did::Other)
    } else {
        Ok(Did::Nothing)
    }
}

fn dropped_at(atom: u32) -> Dropped {
    Dropped {
        hart: 0,
        step: 0,
        atom,
        why: Why::Spent,
    }
}

/// Makes a change by chance, where it can be made.
fn act(rt: &impl Abort, making: &mut Making, r: u32) -> Result<Did, OutOfMemory> {
    let hart = (r / 16 % 2) as u8;
    let rest = r / 32;
    match r % 16 {
        0 => bind(making, rest % 3, rest),
        1 => {
            making.choose(rest)?;
            Ok(Did::Chose(rest))
        }
        2 => {
            making.give_up(dropped_at(rest))?;
            Ok(Did::GaveUp(rest))
        }
        3 => give(rt, making, hart, some_place(rest), rest),
        4 => Ok(Did::Nothing),
        _ => go(rt, making, hart, rest),
    }
}

/// What stands after a change: what is seen, and the choices and dropped biases so far.
#[derive(Clone, Copy, PartialEq, Eq)]
struct Moment {
    view: View,
    choices: u32,
    dropped: u32,
}

/// The moment after another one.
fn next_moment(rt: &impl Abort, making: &Making, last: &Moment, did: Did) -> Moment {
    Moment {
        view: view_now(rt, making),
        choices: match did {
            Did::Chose(way) => folded(last.choices, way),
            _ => last.choices,
        },
        dropped: match did {
            Did::GaveUp(atom) => folded(last.dropped, atom),
            _ => last.dropped,
        },
    }
}

/// Goes back by some changes, or seldom by all.
fn go_back(rt: &impl Abort, making: &mut Making, moments: &mut Vec<Moment>, r: u32) {
    let mark = if r % 16 == 0 {
        0
    } else {
        making.mark().saturating_sub((r % 13) as usize)
    };
    assert!(rt; making.back(mark));
    moments.truncate(mark.saturating_add(1));
}

/// Makes a change, or goes back where there is none. A refusal of memory changes nothing.
fn turn(rt: &impl Abort, making: &mut Making, moments: &mut Vec<Moment>, r: u32) {
    let last = *moments.last().expect(rt, "a moment");
    match act(rt, making, r) {
        Ok(Did::Nothing) => go_back(rt, making, moments, r / 32),
        Ok(did) => {
            let next = next_moment(rt, making, &last, did);
            moments.push(next).expect(rt, "memory");
        }
        Err(_) => {}
    }
}

fn assert_last(rt: &impl Abort, making: &Making, moments: &[Moment]) {
    let last = moments.last().expect(rt, "a moment");
    assert_view(rt, making, &last.view, "the last moment");
    assert!(rt; moments.len().checked_sub(1) == Some(making.mark()));
}

/// The moment at which nothing was done yet.
fn beginning(rt: &impl Abort, alloc: Global, making: &Making) -> Vec<Moment> {
    let mut moments = Vec::new(alloc);
    let first = Moment {
        view: view_now(rt, making),
        choices: 0,
        dropped: 0,
    };
    moments.push(first).expect(rt, "memory");
    moments
}

/// Some hundred calls by a seed, and the last moment.
fn walk(rt: &impl Abort, making: &mut Making, moments: &mut Vec<Moment>, seed: u32) {
    let mut r = seed;
    for _ in 0..300 {
        r = drawn(r);
        turn(rt, making, moments, r);
        assert_last(rt, making, moments);
    }
}

/// The certificate has the choices and the dropped biases of the last moment.
fn assert_told(rt: &impl Abort, told: &Told, moments: &[Moment]) {
    let last = moments.last().expect(rt, "a moment");
    assert!(rt; told.choices == last.choices && told.dropped == last.dropped);
}

fn assert_walk(rt: &impl Abort, alloc: Global, seed: u32) -> Result<(), Fail> {
    let mut making = Making::begin(alloc, TEXT)?;
    let mut moments = beginning(rt, alloc, &making);
    walk(rt, &mut making, &mut moments, seed);
    assert_told(rt, &making.finish(alloc)?, &moments);
    Ok(())
}

#[test]
fn what_is_seen_goes_back_with_the_changes(rt: HostRuntime) -> Result<(), Fail> {
    for seed in [1, 2, 3] {
        assert_walk(&rt, rt.alloc(), seed)?;
    }
    Ok(())
}
