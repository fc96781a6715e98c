// Templates of one hart against the records of divisions.
ghost use Rattle.std.specs.Prelude.{◌≡◌, ◌≤◌, [], ◌∷◌, IfOk, length};
ghost use Rattle.std.specs.List.{list_all};
ghost use Rattle.tpl_admit.specs.Internal.Ordered.{is_ascending, stands_before};

use dom_set::Set;
use rv_csr::Priv;
use rv_hart::{Outcome, Record};
use rv_script::{Access, Accesses, Role};
use std::alloc::{AllocError, Global};
use std::process::Abort;
use std::test::Fail;
use tpl_admit::{Dropped, Trace, Unmet, Why};
use tpl_ast::{Atom, HartDecl, HartState, Item, Items, Template, Var, Wish};

const BASE: u32 = 0x8000_0000;

/// The word of `div x7, x5, x6`.
const DIV: u32 = 0x0262_c3b3;

fn list_of<T: Drop>(alloc: Global, item: T) -> Result<Items<T>, AllocError>
    ensures { IfOk result (λ items. items ≡ item ∷ []) }
{
    let mut items = Vec::new(alloc);
    items.push(item)?;
    Ok(Items::from_vec(items))
}

fn start(alloc: Global, places: &[(u32, u32)]) -> Result<HartState, AllocError> {
    Ok(HartState {
        pc: BASE,
        privilege: Priv::M,
        mstatus: 0,
        medeleg: 0,
        satp: 0,
        places: Items::from_slice(alloc, places)?,
    })
}

/// The fetch of a word.
fn fetch(pc: u32, word: u32) -> Accesses {
    let mut accesses = Accesses::new();
    accesses.push(Access {
        role: Role::Fetch,
        addr: pc,
        size: 4,
        value: word,
    });
    accesses
}

/// Six divided by three, by the instruction at an address.
fn division(pc: u32) -> Record {
    Record {
        pc,
        privilege: Priv::M,
        word: DIV,
        outcome: Outcome::Retired,
        rd: Some((7, 2)),
        accesses: fetch(pc, DIV),
        next_pc: pc.wrapping_add(4),
    }
}

/// A word that is refused as illegal, whatever it is.
fn refusal(word: u32) -> Record {
    Record {
        pc: BASE,
        privilege: Priv::M,
        word,
        outcome: Outcome::Trap {
            cause: 2,
            value: word,
            to: Priv::M,
        },
        rd: None,
        accesses: fetch(BASE, word),
        next_pc: BASE,
    }
}

fn variable_of(name: &str) -> Result<Var, Fail> {
    match name {
        "op" => Ok(Var::Op),
        "rd" => Ok(Var::Rd),
        "a" => Ok(Var::A),
        "b" => Ok(Var::B),
        "ea" => Ok(Var::Ea),
        "target" => Ok(Var::Target),
        "outcome" => Ok(Var::Outcome),
        _ => Err(Fail::new("no variable")),
    }
}

/// An atom: a variable and the one number that it is among, or `taken`.
fn wish_of(alloc: Global, atom: &str, prefer: bool) -> Result<Wish, Fail> {
    if atom == "taken" {
        return Ok(Wish {
            atom: Atom::Taken,
            prefer,
        });
    }
    let (name, text) = atom.split_once('=').ok_or("an atom")?;
    let number = text.parse()?;
    let set = Set::from_ranges(alloc, &[(number, number)], 1)?;
    Ok(Wish {
        atom: Atom::In(variable_of(name)?, set),
        prefer,
    })
}

/// A leaf of atoms, with a star before each bias.
fn leaf(alloc: Global, atoms: &str) -> Result<Item, Fail> {
    let mut wishes = Vec::new(alloc);
    for atom in atoms.split_whitespace() {
        let wish = match atom.strip_prefix("*") {
            Some(bias) => wish_of(alloc, bias, true)?,
            None => wish_of(alloc, atom, false)?,
        };
        wishes.push(wish)?;
    }
    Ok(Item::Leaf { line: 7, wishes })
}

/// A template of one hart with such a body.
fn template(alloc: Global, body: Vec<Item>) -> Result<Template, Fail>
    ensures { IfOk result (λ t. length t.harts ≡ 1) }
{
    let start = start(alloc, &[(5, 6)])?;
    Ok(Template {
        text: Items::new(alloc),
        ram: Items::new(alloc),
        pool: Items::new(alloc),
        tables: Items::new(alloc),
        flags: Items::new(alloc),
        vectors: Set::new(alloc),
        words: Items::new(alloc),
        names: Items::new(alloc),
        harts: list_of(alloc, HartDecl { start, body })?,
    })
}

/// Whether a dropped bias stands before an atom of a step.
fn stands_before(hart: u32, step: u32, atom: u32, dropped: &Dropped) -> bool
    ensures { result ≡ stands_before hart step atom dropped.now }
{
    dropped.hart < hart
        || dropped.hart == hart
            && (dropped.step < step || dropped.step == step && dropped.atom < atom)
}

/// Whether it stands before all others.
fn is_first(one: &Dropped, others: &[Dropped]) -> bool
    ensures { result ≡ list_all (λ e. stands_before e.hart e.step e.atom one.now) others.now }
{
    others.iter().all(|other| stands_before(other.hart, other.step, other.atom, one))
}

/// Whether dropped biases stand by ascending hart, step and atom.
fn are_ascending(dropped: &[Dropped]) -> bool
    ensures { result ≡ is_ascending dropped.now }
{
    let [one, rest @ ..] = dropped else {
        return true;
    };
    is_first(one, rest) && are_ascending(rest)
}

/// The least failure of records by a template with such a body.
fn judged_in(
    alloc: Global,
    body: Vec<Item>,
    records: Items<Record>,
    choices: &[u32],
    dropped: &[Dropped],
) -> Result<Option<Unmet>, Fail>
    requires { length records ≤ 8192 }
{
    if !are_ascending(dropped) {
        return Err(Fail::new("the dropped biases are out of order"));
    }
    let template = template(alloc, body)?;
    let start = list_of(alloc, start(alloc, &[(5, 6), (6, 3)])?)?;
    let records = list_of(alloc, records)?;
    let trace = Trace {
        template: &template,
        start: start.as_slice(),
        words: &[],
        records: records.as_slice(),
        choices,
        names: &[],
        dropped,
    };
    Ok(trace.least_failure())
}

/// A failure's step and atom, or `ok`.
fn shown(alloc: Global, unmet: Option<Unmet>) -> Result<String, Fail> {
    let Some(Unmet { hart, step, atom }) = unmet else {
        return Ok(format!(in alloc; "ok")?);
    };
    if hart != 0 {
        return Err(Fail::new("another hart"));
    }
    Ok(format!(in alloc; "{step} {atom}")?)
}

/// The least failure of one division by such a body.
fn judged(
    alloc: Global,
    body: Vec<Item>,
    choices: &[u32],
    dropped: &[Dropped],
) -> Result<String, Fail> {
    let records = list_of(alloc, division(BASE))?;
    shown(alloc, judged_in(alloc, body, records, choices, dropped)?)
}

fn numbers(alloc: Global, text: &str) -> Result<Vec<u32>, Fail> {
    let mut numbers = Vec::new(alloc);
    for number in text.split_whitespace() {
        numbers.push(number.parse()?)?;
    }
    Ok(numbers)
}

const fn dropped_at(hart: u32, step: u32, atom: u32) -> Dropped {
    Dropped {
        hart,
        step,
        atom,
        why: Why::NoneFits,
    }
}

/// Biases that were dropped at the first step.
fn drops_of(alloc: Global, atoms: &str) -> Result<Vec<Dropped>, Fail> {
    let mut drops = Vec::new(alloc);
    for atom in atoms.split_whitespace() {
        drops.push(dropped_at(0, 0, atom.parse()?))?;
    }
    Ok(drops)
}

/// The leaves of a body, with commas between them, or `-`.
fn leaves_of(alloc: Global, text: &str) -> Result<Vec<Item>, Fail> {
    let mut body = Vec::new(alloc);
    if text == "-" {
        return Ok(body);
    }
    for atoms in text.split(',') {
        body.push(leaf(alloc, atoms)?)?;
    }
    Ok(body)
}

/// Leaves, the atoms that are listed as dropped, and the step and the atom of the least failure, or `ok`; operation 44
/// is `div`.
const LEAVES: &str = "\
op=44;;ok
op=44 rd=9;;0 1
op=44 *rd=9;;0 1
op=44 *rd=9;1;ok
*op=44 *rd=9;0;0 1
a=6 b=3;;ok
ea=9;;0 0
outcome=13;;0 0
outcome=255;;ok";

fn compare_leaves(rt: &impl Abort, alloc: Global, row: &str) -> Result<(), Fail> {
    let (leaves, rest) = row.split_once(';').ok_or("leaves")?;
    let (dropped, want) = rest.split_once(';').ok_or("dropped atoms")?;
    let got = judged(
        alloc,
        leaves_of(alloc, leaves)?,
        &[],
        &drops_of(alloc, dropped)?,
    )?;
    assert_eq!(rt; got.as_str(), want, "at {row}");
    Ok(())
}

#[test]
fn a_division_meets_its_leaf_or_fails_at_an_atom(rt: HostRuntime) -> Result<(), Fail> {
    for row in LEAVES.split('\n') {
        compare_leaves(&rt, rt.alloc(), row)?;
    }
    Ok(())
}

/// Words that are refused, leaves, and the step and the atom of the least failure, or `ok`. The words are `lw x7, 4(x5)`,
/// `jalr x7, 4(x5)` and `bne x5, x6, 8`; x5 is 6 and x6 is 3.
const REFUSED: &str = "\
4367235;outcome=2 ea=10;ok
4367235;outcome=2 ea=14;0 1
4367235;outcome=2 a=6;0 1
4359143;outcome=2 target=10;ok
4359143;outcome=2 a=6;0 1
6460515;outcome=2 taken;ok
6460515;outcome=2 target=2147483656;ok
6460515;outcome=2 b=3;0 1";

fn compare_refused(rt: &impl Abort, alloc: Global, row: &str) -> Result<(), Fail> {
    let (word, rest) = row.split_once(';').ok_or("a word")?;
    let (leaves, want) = rest.split_once(';').ok_or("leaves")?;
    let records = list_of(alloc, refusal(word.parse()?))?;
    let unmet = judged_in(alloc, leaves_of(alloc, leaves)?, records, &[], &[])?;
    assert_eq!(rt; shown(alloc, unmet)?.as_str(), want, "at {row}");
    Ok(())
}

#[test]
fn of_a_refused_instruction_a_and_b_alone_have_no_value(rt: HostRuntime) -> Result<(), Fail> {
    for row in REFUSED.split('\n') {
        compare_refused(&rt, rt.alloc(), row)?;
    }
    Ok(())
}

/// Leaves, the numbers of choices, and the same.
const LEFT_OVER: &str = "\
-;;0 65535
,;;1 65535
;0;1 65535";

/// The numbers of choices between a leaf that the division doesn't meet and one that it does.
const CHOICES: &str = "\
rd=9,rd=7;1;ok
rd=9,rd=7;0;0 0
rd=9,rd=7;2;0 65535
rd=9,rd=7;;0 65535";

/// A choice between the leaves.
fn choice_of(alloc: Global, leaves: Vec<Item>) -> Result<Vec<Item>, Fail> {
    let mut ways = Vec::new(alloc);
    for leaf in leaves {
        let mut body = Vec::new(alloc);
        body.push(leaf)?;
        ways.push((1, body))?;
    }
    let mut body = Vec::new(alloc);
    body.push(Item::Choose { line: 3, ways })?;
    Ok(body)
}

fn compare_choices(rt: &impl Abort, alloc: Global, row: &str, choice: bool) -> Result<(), Fail> {
    let (leaves, rest) = row.split_once(';').ok_or("leaves")?;
    let (choices, want) = rest.split_once(';').ok_or("choices")?;
    let leaves = leaves_of(alloc, leaves)?;
    let body = if choice {
        choice_of(alloc, leaves)?
    } else {
        leaves
    };
    let got = judged(alloc, body, &numbers(alloc, choices)?, &[])?;
    assert_eq!(rt; got.as_str(), want, "at {row}");
    Ok(())
}

#[test]
fn leaves_records_and_choices_are_left_over(rt: HostRuntime) -> Result<(), Fail> {
    for row in LEFT_OVER.split('\n') {
        compare_choices(&rt, rt.alloc(), row, false)?;
    }
    Ok(())
}

#[test]
fn a_choice_takes_the_alternative_that_its_number_names(rt: HostRuntime) -> Result<(), Fail> {
    for row in CHOICES.split('\n') {
        compare_choices(&rt, rt.alloc(), row, true)?;
    }
    Ok(())
}

/// The hart, step and atom of biases that are listed as dropped, and the step and the atom that fail where it isn't
/// listed, or `ok`.
const LISTED: &str = "\
0 0 1;0 1
0 0 2;ok
0 0 3;0 3
0 1 0;ok
0 1 1;1 1
0 1 3;1 3
0 2 1;2 1
0 2 3;2 3
0 3 1;ok
1 0 1;ok
1 2 3;ok
2 1 1;ok";

fn drop_of(text: &str) -> Result<Dropped, Fail> {
    let (hart, rest) = text.split_once(' ').ok_or("a hart")?;
    let (step, atom) = rest.split_once(' ').ok_or("a step")?;
    Ok(dropped_at(hart.parse()?, step.parse()?, atom.parse()?))
}

/// The biases but the one of a row.
fn all_but(alloc: Global, left_out: &str) -> Result<Vec<Dropped>, Fail> {
    let mut dropped = Vec::new(alloc);
    for row in LISTED.split('\n') {
        let (bias, _) = row.split_once(';').ok_or("a bias")?;
        if row != left_out {
            dropped.push(drop_of(bias)?)?;
        }
    }
    Ok(dropped)
}

fn three_divisions(alloc: Global) -> Result<Items<Record>, AllocError>
    ensures { IfOk result (λ items. length items ≡ 3) }
{
    let mut items = Vec::new(alloc);
    items.push(division(BASE))?;
    items.push(division(BASE + 4))?;
    items.push(division(BASE + 8))?;
    Ok(Items::from_vec(items))
}

/// Of three divisions each has two biases that hold and two that don't.
const THREE_LEAVES: &str = "*b=3 *rd=9 *rd=7 *a=5,*b=3 *rd=9 *rd=7 *a=5,*b=3 *rd=9 *rd=7 *a=5";

/// The least failure of three divisions, with all biases dropped but that of a row.
fn compare_biases(rt: &impl Abort, alloc: Global, row: &str, want: &str) -> Result<(), Fail> {
    let dropped = all_but(alloc, row)?;
    let body = leaves_of(alloc, THREE_LEAVES)?;
    let unmet = judged_in(alloc, body, three_divisions(alloc)?, &[], &dropped)?;
    assert_eq!(rt; shown(alloc, unmet)?.as_str(), want, "at {row}");
    Ok(())
}

#[test]
fn a_dropped_bias_is_found_among_others(rt: HostRuntime) -> Result<(), Fail> {
    compare_biases(&rt, rt.alloc(), "no row", "ok")?;
    for row in LISTED.split('\n') {
        let (_, want) = row.split_once(';').ok_or("what fails")?;
        compare_biases(&rt, rt.alloc(), row, want)?;
    }
    Ok(())
}
