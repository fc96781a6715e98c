// Steps that stand in a row of a table: what is known before a step, how it ends, what it changes, and its accesses,
// parted by bars.
use crate::told::{fetched, first_six};
use rv_csr::{REGISTERS, Register, row_of};
use rv_hart::{Access, Place, Priv};
use std::alloc::Global;
use std::test::Fail;
use test_rows::{Row, number_of, role_of};

/// The start of RAM.
pub const RAM: u32 = 0x8000_0000;

/// A small number in decimal.
fn small_of(word: &str) -> Result<u8, Fail> {
    Ok(word.parse()?)
}

/// What stands before a mark, and what stands behind it.
fn parts(text: &str, mark: char) -> Result<(&str, &str), Fail> {
    match text.split_once(mark) {
        Some(parts) => Ok(parts),
        None => Err(Fail::new(format_args!("no {mark}: {text}"))),
    }
}

/// The CSR with a name.
pub fn csr_named(name: &str) -> Option<&'static Register> {
    REGISTERS.iter().find(|x| row_of(**x).name() == name)
}

/// A place: x5, a CSR by its name, or a word of memory by its address.
fn place_of(word: &str) -> Result<Place, Fail> {
    if let Some(number) = word.strip_prefix('x') {
        return Ok(Place::Reg(small_of(number)?));
    }
    match csr_named(word) {
        Some(register) => Ok(Place::Csr(row_of(*register).address())),
        None => Ok(Place::Word(number_of(word)?)),
    }
}

/// Values of places, the pc, and sights: role, address and word.
#[derive(Drop)]
pub struct Values {
    pub pc: u32,
    pub regs: Vec<(u8, u32)>,
    pub csrs: Vec<(u16, u32)>,
    pub words: Vec<(u32, u32)>,
    pub sights: Vec<(u8, u32, u32)>,
}

fn put_place(values: &mut Values, place: &str, value: u32) -> Result<(), Fail> {
    match place_of(place)? {
        Place::Reg(n) => values.regs.push((n, value))?,
        Place::Csr(addr) => values.csrs.push((addr, value))?,
        Place::Word(addr) => values.words.push((addr, value))?,
    }
    Ok(())
}

fn put_value(values: &mut Values, item: &str) -> Result<(), Fail> {
    let (place, value) = parts(item, '=')?;
    let value = number_of(value)?;
    if place == "pc" {
        values.pc = value;
        return Ok(());
    }
    match place.split_once('/') {
        Some((role, addr)) => {
            let sight = (small_of(role)?, number_of(addr)?, value);
            Ok(values.sights.push(sight)?)
        }
        None => put_place(values, place, value),
    }
}

/// The values that the further words of a row tell.
fn values_of(alloc: Global, row: Row<'_>) -> Result<Values, Fail> {
    let mut values = Values {
        pc: RAM,
        regs: Vec::new(alloc),
        csrs: Vec::new(alloc),
        words: Vec::new(alloc),
        sights: Vec::new(alloc),
    };
    for item in row.words {
        put_value(&mut values, item)?;
    }
    Ok(values)
}

/// How a step ends.
#[derive(Clone, Copy)]
pub enum Ending {
    /// The pc and the privilege after it.
    Retires(u32, Priv),
    /// The cause, the trap value, the privilege that takes the trap, mstatus after it.
    Traps(u8, u32, Priv, u32),
    Needs(Place),
    Outside,
}

fn trap_of(row: &mut Row<'_>) -> Result<Ending, Fail> {
    Ok(Ending::Traps(row.small()?, row.number()?, row.privilege()?, row.number()?))
}

fn ending_of(text: &str) -> Result<Ending, Fail> {
    let mut row = Row::of(text);
    let ending = match row.word()? {
        "retires" => Ending::Retires(row.number()?, row.privilege()?),
        "traps" => trap_of(&mut row)?,
        "needs" => Ending::Needs(place_of(row.word()?)?),
        "outside" => Ending::Outside,
        _ => return Err(row.lacks("ending")),
    };
    row.end()?;
    Ok(ending)
}

/// ROLE/ADDRESS/SIZE/VALUE.
fn access_of(word: &str) -> Result<Access, Fail> {
    let (role, rest) = parts(word, '/')?;
    let (addr, rest) = parts(rest, '/')?;
    let (size, value) = parts(rest, '/')?;
    Ok(Access {
        role: role_of(role)?,
        addr: number_of(addr)?,
        size: small_of(size)?,
        value: number_of(value)?,
    })
}

/// The first access, if there is one, and those of the text.
fn accesses_of(
    alloc: Global,
    first: Option<Access>,
    text: &str,
) -> Result<[Option<Access>; 6], Fail> {
    let mut all = Vec::new(alloc);
    if let Some(access) = first {
        all.push(access)?;
    }
    for word in text.split_whitespace() {
        all.push(access_of(word)?)?;
    }
    if all.len() > 6 {
        return Err(Fail::new(format_args!("more than six accesses: {text}")));
    }
    Ok(first_six(&all))
}

/// A row: the privilege, the instruction word, and the other values that are known; the ending; the values that are
/// changed; the accesses. The instruction word stands at the pc, 80000000 where no `pc=` stands, and its fetch is the
/// first access; with an `@` before it, its fetch is translated and stands among the accesses; with `-` for it none is
/// fetched. A place is x5, a CSR's name or a word's address. Numbers are hexadecimal but for those of registers, causes
/// and sizes.
#[derive(Drop)]
pub struct Case {
    pub from: Priv,
    pub word: u32,
    pub known: Values,
    pub ending: Ending,
    pub changes: Values,
    pub accesses: [Option<Access>; 6],
}

/// The instruction word, and the word at the pc.
fn words_of(text: &str) -> Result<(u32, Option<u32>), Fail> {
    if text == "-" {
        return Ok((0, None));
    }
    match text.strip_prefix('@') {
        Some(word) => Ok((number_of(word)?, None)),
        None => {
            let word = number_of(text)?;
            Ok((word, Some(word)))
        }
    }
}

/// The case of a row, which may have a comment behind a `#`.
pub fn case_of(alloc: Global, line: &str) -> Result<Case, Fail> {
    let text = line.split_once('#').map_or(line, |parts| parts.0);
    let (known, rest) = parts(text, '|')?;
    let (ending, rest) = rest.split_once('|').unwrap_or((rest, ""));
    let (changes, accesses) = rest.split_once('|').unwrap_or((rest, ""));
    let mut row = Row::of(known);
    let from = row.privilege()?;
    let (word, at_pc) = words_of(row.word()?)?;
    let mut known = values_of(alloc, row)?;
    let mut first = None;
    if let Some(word) = at_pc {
        known.words.push((known.pc, word))?;
        first = fetched(known.pc, word);
    }
    Ok(Case {
        from,
        word,
        known,
        ending: ending_of(ending)?,
        changes: values_of(alloc, Row::of(changes))?,
        accesses: accesses_of(alloc, first, accesses)?,
    })
}
