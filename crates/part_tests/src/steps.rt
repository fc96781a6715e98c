// A test that is made line by line. A line changes the test or says what is seen of it; one that isn't so ends the test.
//
// Changes: `give HART PLACE VALUE`, `step HART > RECORD`, `bind NAME VALUE`, `choice WAY`, `drop HART STEP ATOM WHY`,
// `back MARK`. What is seen: `lacks HART PLACE`, `outside HART` and `clash HART BYTE HART ROLE` of the next step,
// `known HART PLACE VALUE`, `memory ADDRESS VALUE`, `name NAME VALUE`, `pc HART VALUE`, `mstatus HART VALUE`,
// `records HART COUNT`, `mark COUNT`, `touch HART ROLE BYTE HART ROLE` of an access to a byte, or `free HART ROLE BYTE`.
// A place is `reg 5`, `csr 305` or `word 80000000`; `-` is no value. Numbers are hexadecimal but for those of registers,
// names, harts and counts.
use crate::seen::{assert_view, view_now};
use foot_map::Clash;
use part_making::{Making, record_text};
use part_state::{OutOfMemory, Probe};
use rv_hart::{Record, Seen};
use rv_script::Place;
use std::alloc::Global;
use std::process::Abort;
use std::test::Fail;
use test_rows::{Row, number_of, role_of};
use tpl_admit::{Dropped, Why};

fn place_of(row: &mut Row<'_>) -> Result<Place, Fail> {
    match row.word()? {
        "reg" => Ok(Place::Reg(row.small()?)),
        "csr" => Ok(Place::Csr(row.address()?)),
        "word" => Ok(Place::Word(row.number()?)),
        _ => Err(row.lacks("place")),
    }
}

/// A byte of a hart's footprint.
fn clash_of(byte: u32, row: &mut Row<'_>) -> Result<Clash, Fail> {
    Ok(Clash {
        byte,
        hart: row.small()?,
        role: role_of(row.word()?)?,
    })
}

fn why_of(row: &mut Row<'_>) -> Result<Why, Fail> {
    match row.word()? {
        "none" => Ok(Why::NoneFits),
        "spent" => Ok(Why::Spent),
        _ => Err(row.lacks("reason")),
    }
}

fn dropped_of(row: &mut Row<'_>) -> Result<Dropped, Fail> {
    Ok(Dropped {
        hart: row.count()?,
        step: row.count()?,
        atom: row.count()?,
        why: why_of(row)?,
    })
}

fn assert_text(rt: &impl Abort, text: &str, want: &str) {
    assert_eq!(rt; text, want);
}

fn assert_record(rt: &impl Abort, alloc: Global, did: &Record, want: &str) -> Result<(), Fail> {
    let text = record_text(alloc, did)?;
    assert_text(rt, text.as_str(), want);
    Ok(())
}

/// A change of a test.
#[derive(Clone, Copy)]
enum Change {
    Give(u8, Place, u32),
    Step(u8),
    Bind(u32, u32),
    Choice(u32),
    GiveUp(Dropped),
}

fn change_of(line: &str) -> Result<Change, Fail> {
    let mut row = Row::of(line);
    match row.word()? {
        "give" => Ok(Change::Give(row.small()?, place_of(&mut row)?, row.number()?)),
        "step" => Ok(Change::Step(row.small()?)),
        "bind" => Ok(Change::Bind(row.count()?, row.number()?)),
        "choice" => Ok(Change::Choice(row.count()?)),
        _ => Ok(Change::GiveUp(dropped_of(&mut row)?)),
    }
}

/// What came of a change.
#[derive(Drop)]
enum Made {
    Changed(bool),
    Stepped(Record),
}

/// Changes the test, where it can be changed so.
fn make(making: &mut Making, change: Change) -> Result<Made, OutOfMemory> {
    let is_made = match change {
        Change::Give(hart, place, value) => making.give(hart, place, value)?,
        Change::Step(hart) => match making.step(hart)? {
            Some(did) => return Ok(Made::Stepped(did)),
            None => false,
        },
        Change::Bind(name, value) => making.bind(name, value)?,
        Change::Choice(way) => making.choose(way)?,
        Change::GiveUp(wish) => making.give_up(wish)?,
    };
    Ok(Made::Changed(is_made))
}

/// Changes the test. A refusal of memory changes nothing, and the next call makes the change.
fn change_made(
    rt: &impl Abort,
    making: &mut Making,
    change: Change,
    line: &str,
) -> Result<Made, Fail> {
    let before = view_now(rt, making);
    match make(making, change) {
        Ok(made) => Ok(made),
        Err(_) => {
            assert_view(rt, making, &before, line);
            Ok(make(making, change)?)
        }
    }
}

/// What stands behind the `>` of a line.
fn record_in(line: &str) -> Result<&str, Fail> {
    match line.split_once('>') {
        Some((_, want)) => Ok(want),
        None => Err(Fail::new(format_args!("no record: {line}"))),
    }
}

/// The next step of a hart would be this.
fn is_ready(
    rt: &impl Abort,
    alloc: Global,
    making: &Making,
    hart: u8,
    want: &str,
) -> Result<bool, Fail> {
    match making.probe(hart) {
        Some(Probe::Ready(did)) => {
            assert_record(rt, alloc, &did, want)?;
            Ok(true)
        }
        _ => Ok(false),
    }
}

/// The step is what the look at it said, and the last record of its hart.
fn is_stepped(
    rt: &impl Abort,
    alloc: Global,
    making: &mut Making,
    line: &str,
) -> Result<bool, Fail> {
    let want = record_in(line)?;
    let change = change_of(line)?;
    let Change::Step(hart) = change else {
        return Ok(false);
    };
    if !is_ready(rt, alloc, making, hart, want)? {
        return Ok(false);
    }
    let Made::Stepped(did) = change_made(rt, making, change, line)? else {
        return Ok(false);
    };
    assert_record(rt, alloc, &did, want)?;
    let last = making.records(hart).and_then(|records| records.last());
    assert_record(rt, alloc, last.ok_or("a record")?, want)?;
    Ok(true)
}

/// Another change is made as a line says.
fn is_changed(rt: &impl Abort, making: &mut Making, line: &str) -> Result<bool, Fail> {
    match change_made(rt, making, change_of(line)?, line)? {
        Made::Changed(is_made) => Ok(is_made),
        Made::Stepped(_) => Ok(false),
    }
}

fn is_missing(probe: &Option<Probe>, place: Place) -> bool {
    matches!(probe, Some(Probe::Missing(lacks)) if *lacks == place)
}

fn is_clash(probe: &Option<Probe>, clash: Clash) -> bool {
    matches!(probe, Some(Probe::Clash(found)) if *found == clash)
}

/// What is seen of a word of memory.
fn seen_of(row: &mut Row<'_>) -> Result<Seen, Fail> {
    match row.word()? {
        "-" => Ok(Seen::Untouched),
        "none" => Ok(Seen::Vacant),
        word => Ok(Seen::Known(number_of(word)?)),
    }
}

/// The next step of a hart lacks a place.
fn lacks(making: &Making, row: &mut Row<'_>) -> Result<bool, Fail> {
    let probe = making.probe(row.small()?);
    Ok(is_missing(&probe, place_of(row)?))
}

/// The next step of a hart would race.
fn clashes(making: &Making, row: &mut Row<'_>) -> Result<bool, Fail> {
    let probe = making.probe(row.small()?);
    let byte = row.number()?;
    Ok(is_clash(&probe, clash_of(byte, row)?))
}

/// An access to a byte would race with a touch of the same byte, or with none.
fn touches(making: &Making, row: &mut Row<'_>, is_free: bool) -> Result<bool, Fail> {
    let hart = row.small()?;
    let role = role_of(row.word()?)?;
    let byte = row.number()?;
    let found = making.clash(hart, role, byte);
    if is_free {
        Ok(found.is_none())
    } else {
        Ok(found == Some(clash_of(byte, row)?))
    }
}

/// The value of a place is this, or it isn't known.
fn is_known(making: &Making, row: &mut Row<'_>) -> Result<bool, Fail> {
    let hart = row.small()?;
    let value = making.value_of(hart, place_of(row)?);
    Ok(value == row.option()?)
}

/// A hart has so many records.
fn has_records(making: &Making, row: &mut Row<'_>) -> Result<bool, Fail> {
    let records = making.records(row.small()?).ok_or("a hart")?;
    Ok(records.len() == row.count()? as usize)
}

/// What a line says of a hart.
fn is_hart_so(making: &Making, word: &str, row: &mut Row<'_>) -> Result<bool, Fail> {
    let hart = making.hart(row.small()?).ok_or("a hart")?;
    let value = match word {
        "pc" => hart.pc,
        "mstatus" => hart.csrs.mstatus(),
        _ => return Err(row.lacks("line")),
    };
    Ok(value == row.number()?)
}

/// What a line says of values and records.
fn is_true(making: &Making, word: &str, row: &mut Row<'_>) -> Result<bool, Fail> {
    match word {
        "known" => is_known(making, row),
        "name" => Ok(making.name(row.count()?) == row.option()?),
        "memory" => Ok(making.memory(row.number()?) == seen_of(row)?),
        "records" => has_records(making, row),
        _ => is_hart_so(making, word, row),
    }
}

/// What a line says is so.
fn is_seen(making: &Making, line: &str) -> Result<bool, Fail> {
    let mut row = Row::of(line);
    match row.word()? {
        "lacks" => lacks(making, &mut row),
        "clash" => clashes(making, &mut row),
        "outside" => Ok(matches!(making.probe(row.small()?), Some(Probe::Outside))),
        "touch" => touches(making, &mut row, false),
        "free" => touches(making, &mut row, true),
        "mark" => Ok(making.mark() == row.count()? as usize),
        word => is_true(making, word, &mut row),
    }
}

/// Goes back to the mark of a line.
fn is_back(making: &mut Making, line: &str) -> Result<bool, Fail> {
    let mut row = Row::of(line);
    let _ = row.word()?;
    Ok(making.back(row.count()? as usize))
}

fn follow(rt: &impl Abort, alloc: Global, making: &mut Making, line: &str) -> Result<(), Fail> {
    let is_so = match Row::of(line).word()? {
        "step" => is_stepped(rt, alloc, making, line)?,
        "give" | "bind" | "choice" | "drop" => is_changed(rt, making, line)?,
        "back" => is_back(making, line)?,
        _ => is_seen(making, line)?,
    };
    assert!(rt; is_so, "{line}");
    Ok(())
}

fn follow_all(
    rt: &impl Abort,
    alloc: Global,
    making: &mut Making,
    lines: &str,
) -> Result<(), Fail> {
    for line in lines.trim().lines() {
        follow(rt, alloc, making, line)?;
    }
    Ok(())
}

/// A row is a template, lines, and what the certificate tells in the end, with `|` and the end of a line between them.
pub fn assert_row(rt: &impl Abort, alloc: Global, row: &str) -> Result<(), Fail> {
    let (text, rest) = row.split_once('|').ok_or("lines")?;
    let (lines, want) = rest.split_once('|').ok_or("a certificate")?;
    let mut making = Making::begin(alloc, text)?;
    follow_all(rt, alloc, &mut making, lines)?;
    assert_text(rt, making.finish(alloc)?.text.as_str(), want.trim_start());
    Ok(())
}
