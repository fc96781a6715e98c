// What a template says, as text.
use dom_set::Set;
use rv_csr::Priv;
use std::alloc::{AllocError, Global};
use std::fmt::Write;
use tpl_ast::{Atom, HartDecl, HartState, Item, NameDecl, Region, Template, Var, Wish};
use tpl_parse::{ParseError, parse};

/// A number: a small one in decimal, another in eight hexadecimal digits.
fn push_number(out: &mut String, n: u32) -> Result<(), AllocError> {
    if n < 0x1_0000 {
        write!(out, " {n}")
    } else {
        write!(out, " {n:08x}")
    }
}

fn push_elements(out: &mut String, set: &Set) -> Result<(), AllocError> {
    for n in 0..set.size() {
        push_number(out, set.nth(n))?;
    }
    Ok(())
}

fn push_ends(out: &mut String, set: &Set) -> Result<(), AllocError> {
    let size = set.size();
    if size < 3 {
        return Ok(());
    }
    push_number(out, set.nth(0))?;
    push_number(out, set.nth(1))?;
    out.push_str(" ..")?;
    push_number(out, set.nth(size - 1))?;
    write!(out, ": {size}")
}

/// The elements of a small set; of another one the first two, the last, and how many there are.
pub fn push_set(out: &mut String, set: &Set) -> Result<(), AllocError> {
    out.push_str(" {")?;
    if set.size() > 12 {
        push_ends(out, set)?;
    } else {
        push_elements(out, set)?;
    }
    out.push_str(" }")
}

fn name_of(var: Var) -> &'static str {
    match var {
        Var::Op => "op",
        Var::Rs1 => "rs1",
        Var::Rs2 => "rs2",
        Var::Rd => "rd",
        Var::Imm => "imm",
        Var::Csr => "csr",
        Var::Ea => "ea",
        Var::A => "a",
        Var::B => "b",
        Var::Pa => "pa",
        Var::Target => "target",
        Var::Outcome => "outcome",
    }
}

fn push_atom(out: &mut String, atom: &Atom) -> Result<(), AllocError> {
    match atom {
        Atom::In(var, set) => {
            let name = name_of(*var);
            write!(out, " {name} in")?;
            push_set(out, set)
        }
        Atom::NotIn(var, set) => {
            let name = name_of(*var);
            write!(out, " {name} not in")?;
            push_set(out, set)
        }
        Atom::Is(var, index) => {
            let name = name_of(*var);
            let index = *index;
            write!(out, " {name} == name {index}")
        }
        Atom::Same(one, other) => {
            let (one, other) = (name_of(*one), name_of(*other));
            write!(out, " {one} == {other}")
        }
        Atom::Differ(one, other) => {
            let (one, other) = (name_of(*one), name_of(*other));
            write!(out, " {one} != {other}")
        }
        Atom::Taken => out.push_str(" taken"),
        Atom::NotTaken => out.push_str(" not taken"),
        Atom::Shared => out.push_str(" shared"),
    }
}

/// The atoms of a leaf, with semicolons before them.
pub fn push_wishes(out: &mut String, wishes: &[Wish]) -> Result<(), AllocError> {
    for wish in wishes {
        out.push(';')?;
        if wish.prefer {
            out.push_str(" prefer")?;
        }
        push_atom(out, &wish.atom)?;
    }
    Ok(())
}

#[cycle(items)]
fn push_items(out: &mut String, items: &[Item]) -> Result<(), AllocError> {
    for item in items {
        push_item(out, item)?;
    }
    Ok(())
}

#[cycle(items)]
fn push_item(out: &mut String, item: &Item) -> Result<(), AllocError> {
    match item {
        Item::Leaf { line, wishes } => {
            let line = *line;
            write!(out, "leaf {line}")?;
            push_wishes(out, wishes)?;
            out.push('\n')
        }
        Item::FetchFault { line, causes } => {
            let line = *line;
            write!(out, "fault {line}")?;
            push_set(out, causes)?;
            out.push('\n')
        }
        Item::Seq(items) => {
            out.push_str("seq\n")?;
            push_items(out, items)?;
            out.push_str("end\n")
        }
        Item::Repeat { times, body } => {
            let times = *times;
            writeln!(out, "repeat {times}")?;
            push_items(out, body)?;
            out.push_str("end\n")
        }
        Item::Choose { line, ways } => {
            let line = *line;
            writeln!(out, "choose {line}")?;
            for way in ways {
                let weight = way.0;
                writeln!(out, "way {weight}")?;
                push_items(out, &way.1)?;
                out.push_str("end\n")?;
            }
            out.push_str("end\n")
        }
        Item::Label { name } => {
            let name = *name;
            writeln!(out, "label {name}")
        }
    }
}

fn push_regions(out: &mut String, regions: &[Region]) -> Result<(), AllocError> {
    out.push_str("ram")?;
    for region in regions {
        let (low, high) = (region.low, region.high);
        write!(out, " {low:08x}-{high:08x}")?;
    }
    out.push('\n')
}

fn push_values(out: &mut String, word: &str, values: &[u32]) -> Result<(), AllocError> {
    out.push_str(word)?;
    for value in values {
        push_number(out, *value)?;
    }
    out.push('\n')
}

fn push_flags(out: &mut String, flags: &[u8]) -> Result<(), AllocError> {
    out.push_str("pteflags")?;
    for flag in flags {
        let flag = *flag;
        write!(out, " {flag:02x}")?;
    }
    out.push('\n')
}

fn push_pairs(out: &mut String, word: &str, pairs: &[(u32, u32)]) -> Result<(), AllocError> {
    out.push_str(word)?;
    for pair in pairs {
        let (key, value) = *pair;
        write!(out, " {key:x}={value:08x}")?;
    }
    out.push('\n')
}

fn push_name(out: &mut String, decl: &NameDecl) -> Result<(), AllocError> {
    out.push_str(if decl.label { "name label " } else { "name " })?;
    for byte in decl.name.as_slice() {
        out.push(char::from(*byte))?;
    }
    push_set(out, &decl.set)?;
    out.push('\n')
}

/// The start of a hart: its pc and privilege, then its fixed parts, then its places.
pub fn push_start(out: &mut String, start: &HartState) -> Result<(), AllocError> {
    let pc = start.pc;
    let letter = match start.privilege {
        Priv::U => 'u',
        Priv::S => 's',
        Priv::M => 'm',
    };
    let (mstatus, medeleg, satp) = (start.mstatus, start.medeleg, start.satp);
    write!(
        out,
        "hart {pc:08x} {letter} {mstatus:08x} {medeleg:08x} {satp:08x}"
    )?;
    push_pairs(out, "", start.places.as_slice())
}

fn push_harts(out: &mut String, harts: &[HartDecl]) -> Result<(), AllocError> {
    for hart in harts {
        push_start(out, &hart.start)?;
        push_items(out, &hart.body)?;
    }
    Ok(())
}

fn push_names(out: &mut String, names: &[NameDecl]) -> Result<(), AllocError> {
    for name in names {
        push_name(out, name)?;
    }
    Ok(())
}

fn push_template(out: &mut String, template: &Template) -> Result<(), AllocError> {
    push_regions(out, template.ram.as_slice())?;
    push_values(out, "pool", template.pool.as_slice())?;
    push_values(out, "tables", template.tables.as_slice())?;
    push_flags(out, template.flags.as_slice())?;
    out.push_str("vectors")?;
    push_set(out, &template.vectors)?;
    out.push('\n')?;
    push_pairs(out, "words", template.words.as_slice())?;
    push_names(out, template.names.as_slice())?;
    push_harts(out, template.harts.as_slice())
}

/// The line and the number of the kind of a fault.
pub fn push_error(out: &mut String, error: ParseError) -> Result<(), AllocError> {
    match error {
        ParseError::Fault(fault) => {
            let (line, kind) = (fault.line, fault.kind as u8);
            write!(out, "{line} {kind}")
        }
        ParseError::OutOfMemory => out.push_str("out of memory"),
    }
}

/// What a text says, or its fault.
pub fn shown(alloc: Global, text: &str) -> Result<String, AllocError> {
    let mut out = String::new(alloc);
    match parse(alloc, text.as_bytes()) {
        Ok(template) => push_template(&mut out, &template)?,
        Err(error) => push_error(&mut out, error)?,
    }
    Ok(out)
}

/// The fault of a text, or `ok`.
pub fn told(alloc: Global, text: &str) -> Result<String, AllocError> {
    let mut out = String::new(alloc);
    match parse(alloc, text.as_bytes()) {
        Ok(_) => out.push_str("ok")?,
        Err(error) => push_error(&mut out, error)?,
    }
    Ok(out)
}
