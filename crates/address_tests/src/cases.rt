// What rows are asked of: a memory, forms of new entries, and addresses.
ghost use Rattle.std.specs.Prelude.{◌≡◌, ◌%◌, ℕ, IfOk};
ghost use Rattle.rv_mem.specs.Part.{part_at};
ghost use Rattle.rv_mem.specs.Ram.{in_ram};
ghost use Rattle.rv_mem.specs.Seen.{is_there};

use addr_rows::{Forms, Row, rows};
use dom_set::Set;
use rv_mem::{PartMem, Ram, Seen, Words};
use std::alloc::Global;
use std::process::Abort;
use std::test::Fail;
use sv_walk::{Kind, View};
use test_rows::{Row as Line, number_of};

/// RAM from 0x80000000, words that are known, where new entries may stand and lead, and addresses.
#[derive(Drop)]
pub struct Case {
    /// The end of RAM.
    pub end: u32,
    pub words: Vec<(u32, u32)>,
    pub tables: Vec<u32>,
    pub pool: Vec<u32>,
    pub flags: Vec<u8>,
    /// The addresses that rows are asked of.
    pub pages: Vec<(u32, u32)>,
    /// Some addresses.
    pub some: Vec<u32>,
}

/// The numbers of a line.
fn numbers(line: Line<'_>, list: &mut Vec<u32>) -> Result<(), Fail> {
    for word in line.words {
        list.push(number_of(word)?)?;
    }
    Ok(())
}

/// The pairs of a line.
fn pairs(line: Line<'_>, mark: char, list: &mut Vec<(u32, u32)>) -> Result<(), Fail> {
    for word in line.words {
        let (first, second) = word.split_once(mark).ok_or("a pair")?;
        list.push((number_of(first)?, number_of(second)?))?;
    }
    Ok(())
}

fn flags(line: Line<'_>, list: &mut Vec<u8>) -> Result<(), Fail> {
    for word in line.words {
        list.push(u8::from_str_radix(word, 16)?)?;
    }
    Ok(())
}

/// Adds what a line says to a case.
fn read_line(case: &mut Case, text: &str) -> Result<(), Fail> {
    let mut line = Line::of(text);
    match line.word()? {
        "ram" => {
            case.end = line.number()?;
            Ok(())
        }
        "words" => pairs(line, '=', &mut case.words),
        "tables" => numbers(line, &mut case.tables),
        "pool" => numbers(line, &mut case.pool),
        "flags" => flags(line, &mut case.flags),
        "pages" => pairs(line, '-', &mut case.pages),
        "some" => numbers(line, &mut case.some),
        _ => Err(line.lacks("such line")),
    }
}

/// The case of a text.
pub fn case_of(alloc: Global, text: &str) -> Result<Case, Fail> {
    let mut case = Case {
        end: 0x8000_0000,
        words: Vec::new(alloc),
        tables: Vec::new(alloc),
        pool: Vec::new(alloc),
        flags: Vec::new(alloc),
        pages: Vec::new(alloc),
        some: Vec::new(alloc),
    };
    for line in text.lines() {
        read_line(&mut case, line)?;
    }
    Ok(case)
}

/// The RAM of a case.
pub fn ram_of(rt: &impl Abort, alloc: Global, end: u32) -> Ram {
    assert_eq!(rt; end % 4, 0);
    Ram::new(vec![in alloc; (0x8000_0000, end)].expect(rt, "memory"))
}

/// Gives a word of RAM a value.
#[tactic(auto, using(crate::proofs::Memories::kept))]
pub fn put_word(rt: &impl Abort, memory: &mut PartMem, a: u32, w: u32)
    ensures { (n : ℕ) → is_there (part_at memory.new n) ≡ is_there (part_at memory.old n) }
{
    assert_eq!(rt; a % 4, 0);
    assert!(rt; !matches!(memory.word(a), Seen::Vacant));
    match memory.put(a, w) {
        Ok(()) => (),
        Err(_) => panic!(rt; "memory"),
    }
}

/// A memory with this RAM of which nothing is known.
#[tactic(auto, using(crate::proofs::Memories::made))]
fn untouched(rt: &impl Abort, alloc: Global, ram: &Ram) -> PartMem
    ensures { (n : ℕ) → is_there (part_at result n) ≡ in_ram ram.now n }
{
    match PartMem::new(alloc, ram) {
        Ok(memory) => memory,
        Err(_) => panic!(rt; "memory"),
    }
}

/// A memory with this RAM of which these words are known.
#[tactic(auto, using(crate::proofs::Memories::still_made))]
pub fn memory_of(rt: &impl Abort, alloc: Global, ram: &Ram, words: &[(u32, u32)]) -> PartMem
    ensures { (n : ℕ) → is_there (part_at result n) ≡ in_ram ram.now n }
{
    let mut memory = untouched(rt, alloc, ram);
    for word in words {
        put_word(rt, &mut memory, word.0, word.1);
    }
    memory
}

/// The rows of a case.
pub fn rows_of(rt: &impl Abort, alloc: Global, case: &Case, view: View, kind: Kind) -> Vec<Row> {
    let ram = ram_of(rt, alloc, case.end);
    let memory = memory_of(rt, alloc, &ram, &case.words);
    let pages = Set::from_ranges(alloc, &case.pages, 1).expect(rt, "memory");
    let forms = Forms {
        tables: Vec::from_slice(alloc, &case.tables).expect(rt, "memory"),
        pool: Vec::from_slice(alloc, &case.pool).expect(rt, "memory"),
        flags: Vec::from_slice(alloc, &case.flags).expect(rt, "memory"),
    };
    rows(alloc, &memory, &ram, view, kind, &pages, &forms).expect(rt, "memory")
}
