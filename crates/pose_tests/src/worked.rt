// Worked leaves, posed and solved.
ghost use Rattle.std.specs.Prelude.{◌≡◌, All, IfOk, length};

use crate::reading::{atoms, count, name_sets, names, number, two_frames, vectors};
use data_goals::Accesses;
use dom_set::Set;
use fd_prob::{Assignment, Extra, space};
use fd_solve::{LeafAnswer, Solved, solve_leaf};
use leaf_pose::{Name, Posed, Stand, are_between, extra_of, problem_of};
use rv_csr::{Csrs, Priv};
use rv_isa::decode;
use std::alloc::Global;
use std::process::Abort;
use std::str::Split;
use std::test::Fail;
use tpl_ast::Atom;

// A row has parts with bars between them: the pc and the privilege; what is known; the leaf's mandatory atoms; its
// biases; the budget; the space of the problem of the mandatory atoms; the answer, which is the instruction's word with
// the values of a and b and the new vector, or `none` or `spent`; and the dropped biases, each by its place and `none`
// or `spent`, or `-`. Numbers are hexadecimal, but for the budget, the space and the places.
const LEAVES: &str = "\
80000000 m | - | op=addi rd=5 rs1=0 imm=7 outcome=ff | - | 1 | 1 | 00700293 0 0 0 | -
80000004 m | x5=1 name=80000000 | op=bne rs1=5 rs2=0 taken target@0 outcome=ff | - | 4096 | 4096 | fe029ee3 1 0 0 | -
80000004 m | x5=1 name=80000000 word=fe029ee3 | op=bne taken target@0 outcome=ff | - | 1 | 1 | fe029ee3 1 0 0 | -
80000004 m | x5=0 name=80000000 word=fe029ee3 | op=bne taken target@0 outcome=ff | - | 1 | 1 | none | -
80000004 m | name=80000000 | op=bne rs1=5 rs2=0 b=0 a=9 taken target@0 outcome=ff | - | 4096 | 4096 | fe029ee3 9 0 0 | -
80000000 m | - | op=addi rs1=0 a=1 outcome=ff | - | 4096 | 4096 | none | -
80000000 m | - | op=addi rs1=0 a=2 outcome=ff | - | 4096 | 4096 | none | -
80000000 m | - | op=addi rd=5 rs1=0 outcome=ff | imm=7 imm=8 | 4096 | 4096 | 00700293 0 0 0 | 1 none
80000000 m | - | op=addi rd=5 rs1=0 outcome=ff | imm!9 imm=8 | 100 | 4096 | 00800293 0 0 0 | 0 spent
80000000 m | - | op=addi rd=5 rs1=0 outcome=ff | imm!9 imm=8 | 4096 | 4096 | 00800293 0 0 0 | -
80000000 m | vector=80000200 | op=jalr rd=1 rs1=5 imm=2 a=80000100 outcome=0 | - | 1 | 1 | 002280e7 80000100 0 80000200 | -
80000000 m | vector=80000200 | op=illegal imm=0 outcome=2 | - | 1 | 1 | 00000000 0 0 80000200 | -
80000000 m | vector=80000200 mtvec | op=illegal imm=0 outcome=2 | - | 1 | 1 | 00000000 0 0 0 | -
80000000 m | - | op=illegal imm=0 outcome=2 | - | 1 | 1 | none | -
80000000 m | vector=80000200 | op=ecall outcome=b | - | 1 | 1 | 00000073 0 0 80000200 | -
80000000 u | vector=80000200 | op=ecall outcome=8 | - | 1 | 1 | 00000073 0 0 80000200 | -
80000000 s | vector=80000200 | op=ecall outcome=b | - | 1 | 1 | none | -
80000000 m | vector=80000200 | op=ebreak outcome=3 | - | 1 | 1 | 00100073 0 0 80000200 | -
80000000 m | - | op=jal rd=1 imm=800 outcome=ff | - | 1 | 1 | 001000ef 0 0 0 | -
80000000 m | name=80000800 | op=jal rd=1 target@0 outcome=ff | - | 1 | 1 | 001000ef 0 0 0 | -
80000000 m | open=80000800 | op=jal rd=1 target@0 outcome=ff | - | 1 | 1 | 001000ef 0 0 0 | -
80000000 m | - | op=beq rs1=1 rs2=2 imm=fffffff8 a=3 b=4 untaken outcome=ff | - | 1 | 1 | fe208ce3 3 4 0 | -
80000000 m | - | op=beq rs1=1 rs2=2 imm=fffffff8 a=3 b=4 taken outcome=ff | - | 1 | 1 | none | -
80000000 m | - | op=beq rs1=1 rs2=2 imm=fffffff8 a~b a=3 outcome=ff | - | 1 | 1 | fe208ce3 3 3 0 | -
80000000 m | - | op=beq rs1=1 rs2=2 imm=fffffff8 a^b a=3 b=3 outcome=ff | - | 1 | 1 | none | -
80000000 m | - | op=mul rd=1 rs1=2 rs2=2 a=3 b=4 outcome=ff | - | 1 | 1 | none | -
80000000 m | - | op=mul rd=1 rs1=2 rs2=3 a=3 b=4 outcome=ff | - | 1 | 1 | 023100b3 3 4 0 | -
80000000 m | - | op=lui rd=7 imm=12345000 outcome=ff | - | 1 | 1 | 123453b7 0 0 0 | -
80000000 m | - | op=sfence_vma rs1=0 rs2=0 outcome=ff | - | 1 | 1 | 12000073 0 0 0 | -
80000000 u | vector=80000200 | op=sfence_vma rs1=0 rs2=0 outcome=2 | - | 1 | 1 | 12000073 0 0 80000200 | -
80000000 m | unfetched | op=addi rd=5 rs1=0 imm=7 outcome=ff | - | 1 | 1 | none | -
80000000 m | - | op=beq rs1=1 rs2=2 imm=8 a=3 outcome=ff | taken untaken b=3 outcome=0 | 1 | 1 | 00208463 3 3 0 | 1 none 3 none
80000000 m | memory | op=lw rd=5 rs1=6 imm=0 a=80000100 outcome=ff | - | 1048577 | 1048577 | 00032283 80000100 0 0 | -
80000000 m | memory | op=lw rd=5 rs1=6 imm=4 ea=80000100 outcome=ff | - | 2 | 2 | 00432283 800000fc 0 0 | -
80000000 m | memory | op=lw rd=5 rs1=6 imm=0 a=80001ffc outcome=ff | - | 1048577 | 1048577 | 00032283 80001ffc 0 0 | -
80000000 m | memory | op=lw rd=5 rs1=6 imm=0 a=80000101 outcome=ff | - | 1048577 | 1048577 | none | -
80000000 m | memory vector=80000200 | op=lw rd=5 rs1=6 imm=0 a=80000101 outcome=4 | - | 1048577 | 1048577 | 00032283 80000101 0 80000200 | -
80000000 m | memory vector=80000200 | op=lw rd=5 rs1=0 imm=0 outcome=5 | - | 1048577 | 1048577 | 00002283 0 0 80000200 | -
80000000 m | memory vector=80000200 | op=lw rd=5 rs1=6 imm=0 pa=80002000 | - | 1048577 | 1048577 | none | -
80000000 m | memory | op=lw rd=5 rs1=6 imm=0 a=80000100 outcome=ff | pa=80000104 ea=80000100 pa=80000100 | 1048577 | 1048577 | 00032283 80000100 0 0 | 0 none
80000000 m | memory | op=sw rs1=6 rs2=7 imm=0 a=80000100 b=5 outcome=ff | - | 1048577 | 1048577 | none | -
80000000 m | memory | op=sw rs1=6 rs2=7 imm=0 a=80001000 b=5 outcome=ff | - | 1048577 | 1048577 | 00732023 80001000 5 0 | -
";

/// The parts of a row.
#[derive(Drop)]
struct Row<'a> {
    line: &'a str,
    parts: Split<'a, &'a str>,
}

impl<'a> Row<'a> {
    fn of(line: &'a str) -> Row<'a> {
        Row {
            line,
            parts: line.split(" | "),
        }
    }

    fn part(&mut self, rt: &impl Abort) -> &'a str {
        self.parts.next().expect(rt, self.line)
    }
}

fn privilege(rt: &impl Abort, word: &str) -> Priv {
    match word {
        "u" => Priv::U,
        "s" => Priv::S,
        "m" => Priv::M,
        _ => panic!(rt; "no privilege: {}", word),
    }
}

/// The registers of a row: `x5=1`.
fn registers(rt: &impl Abort, known: &str) -> [Option<u32>; 32] {
    let mut registers = [None; 32];
    registers[0] = Some(0);
    for word in known.split_whitespace() {
        if let Some(rest) = word.strip_prefix('x') {
            let (index, value) = rest.split_once('=').expect(rt, word);
            let index = count(rt, index) as usize;
            if index < 32 {
                registers[index] = Some(number(rt, value));
            }
        }
    }
    registers
}

/// The word at the pc: `word=00700293`.
fn word_of(rt: &impl Abort, known: &str) -> Option<u32> {
    let mut found = None;
    for word in known.split_whitespace() {
        if let Some(value) = word.strip_prefix("word=") {
            found = Some(number(rt, value));
        }
    }
    found
}

/// The CSRs of a row: `mtvec` for a known vector.
fn csrs(known: &str) -> Csrs {
    let mut csrs = Csrs::new(0, 0, 0, 0);
    if known.contains("mtvec") {
        csrs.start(0x305, 0x8000_0300);
    }
    csrs
}

/// What loads and stores may do: `memory` for two frames.
fn accesses_of(alloc: Global, known: &str) -> Result<Option<Accesses>, Fail> {
    if !known.contains("memory") {
        return Ok(None);
    }
    let accesses = two_frames(alloc)?;
    Ok(Some(accesses))
}

fn stand_of<'t>(
    rt: &impl Abort,
    hart: &str,
    known: &str,
    accesses: Option<Accesses>,
    vectors: &'t Set,
    names: &'t [Name],
) -> Stand<'t> {
    let (pc, mode) = hart.split_once(' ').expect(rt, hart);
    Stand {
        pc: number(rt, pc),
        privilege: privilege(rt, mode),
        csrs: csrs(known),
        registers: registers(rt, known),
        word: word_of(rt, known),
        fetches: !known.contains("unfetched"),
        pairs: 1,
        accesses,
        sources: vectors,
        vectors,
        names,
        others: &[],
    }
}

/// The Extras of biases.
fn extras_of(
    rt: &impl Abort,
    alloc: Global,
    stand: &Stand,
    biases: &[Atom],
    posed: &Posed,
) -> Result<Vec<Extra>, Fail>
    ensures { IfOk result (λ extras. All (λ e. length e.cases ≡ length posed.now.shapes) extras.items) }
{
    let mut extras = Vec::new(alloc);
    for i in 0..biases.len() {
        let bias = &biases[i..i + 1];
        assert!(rt; are_between(bias));
        extras.push(extra_of(alloc, stand, bias, posed)?)?;
    }
    Ok(extras)
}

/// Whether an assignment is an instruction with a word, with these values of a, b and the vector.
fn is_found(rt: &impl Abort, x: &Assignment, wanted: &str) -> bool {
    let mut words = wanted.split_whitespace();
    let word = number(rt, words.next().expect(rt, wanted));
    let a = number(rt, words.next().expect(rt, wanted));
    let b = number(rt, words.next().expect(rt, wanted));
    let vector = number(rt, words.next().expect(rt, wanted));
    let i = decode(word).expect(rt, wanted);
    let v = x.values;
    let fields = [
        u32::from(i.op as u8),
        u32::from(i.rs1),
        u32::from(i.rs2),
        i.imm,
        u32::from(i.rd),
    ];
    [v[0], v[1], v[2], v[3], v[4]] == fields && [v[7], v[8], v[13]] == [a, b, vector]
}

fn is_solved(rt: &impl Abort, solved: Solved, wanted: &str) -> bool {
    match solved {
        Solved::NoneFits => wanted == "none",
        Solved::Spent => wanted == "spent",
        Solved::Found(x) => wanted != "none" && wanted != "spent" && is_found(rt, &x, wanted),
    }
}

/// Whether the dropped biases are these.
fn are_dropped(rt: &impl Abort, dropped: &[(u32, bool)], wanted: &str) -> bool {
    let mut words = wanted.split_whitespace();
    for (place, spent) in dropped {
        let named = words.next().expect(rt, wanted);
        let reason = words.next().expect(rt, wanted);
        if count(rt, named) != u64::from(*place)
            || reason != (if *spent { "spent" } else { "none" })
        {
            return false;
        }
    }
    wanted.trim() == "-" && dropped.is_empty() || words.next().is_none()
}

fn answer(
    rt: &impl Abort,
    alloc: Global,
    stand: &Stand,
    row: &mut Row,
) -> Result<LeafAnswer, Fail> {
    let leaf = atoms(rt, alloc, row.part(rt))?;
    let biases = atoms(rt, alloc, row.part(rt))?;
    let nodes = count(rt, row.part(rt));
    assert!(rt; are_between(&leaf));
    assert!(rt; stand.are_posable(&leaf));
    let posed = problem_of(alloc, stand, &leaf, &[0; 16])?;
    assert_eq!(rt; space(&posed.problem), count(rt, row.part(rt)));
    let extras = extras_of(rt, alloc, stand, &biases, &posed)?;
    Ok(solve_leaf(alloc, &posed.problem, &extras, nodes)?)
}

fn is_right(rt: &impl Abort, alloc: Global, line: &str) -> Result<bool, Fail> {
    let mut row = Row::of(line);
    let hart = row.part(rt);
    let known = row.part(rt);
    let vectors = vectors(rt, alloc, known)?;
    let sets = name_sets(rt, alloc, known)?;
    let names = names(rt, alloc, known, &sets)?;
    let accesses = accesses_of(alloc, known)?;
    let stand = stand_of(rt, hart, known, accesses, &vectors, &names);
    let answer = answer(rt, alloc, &stand, &mut row)?;
    let right = is_solved(rt, answer.solved, row.part(rt));
    Ok(right && are_dropped(rt, answer.dropped.as_slice(), row.part(rt)))
}

#[test]
fn worked_leaves(rt: HostRuntime) -> Result<(), Fail> {
    for line in LEAVES.lines() {
        assert!(&rt; is_right(&rt, rt.alloc(), line)?, "{}", line);
    }
    Ok(())
}
