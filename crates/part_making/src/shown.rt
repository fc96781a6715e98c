// Records and certificates as text, in the form of a report's lines.
use rv_csr::{Priv, REGISTERS, row_of};
use rv_hart::{Outcome, Record};
use rv_script::{Access, Role};
use std::alloc::{AllocError, Global};
use std::fmt::Write;
use tpl_admit::{Cert, Dropped, HartState, Why};
use tpl_ast::Items;

fn letter_of(privilege: Priv) -> &'static str {
    match privilege {
        Priv::U => "u",
        Priv::S => "s",
        Priv::M => "m",
    }
}

fn name_of(role: Role) -> &'static str {
    match role {
        Role::Fetch => "fetch",
        Role::Walk => "walk",
        Role::Load => "load",
        Role::Store => "store",
    }
}

fn push_access(text: &mut String, access: &Access) -> Result<(), AllocError> {
    let role = name_of(access.role);
    let (addr, size, value) = (access.addr, access.size, access.value);
    write!(text, " {role}@{addr:08x}:{size}={value:08x}")
}

fn push_outcome(text: &mut String, outcome: Outcome) -> Result<(), AllocError> {
    match outcome {
        Outcome::Retired => text.push_str(" retire"),
        Outcome::Trap { cause, value, to } => {
            let name = letter_of(to);
            write!(text, " trap {cause} {value:08x} to {name}")
        }
    }
}

fn push_written(text: &mut String, rd: Option<(u8, u32)>) -> Result<(), AllocError> {
    match rd {
        None => Ok(()),
        Some((n, value)) => write!(text, " x{n}={value:08x}"),
    }
}

fn push_fetched(text: &mut String, did: &Record) -> Result<(), AllocError> {
    let name = letter_of(did.privilege);
    let (pc, word) = (did.pc, did.word);
    write!(text, " pc {pc:08x} {name} {word:08x}")
}

fn push_record(text: &mut String, did: &Record) -> Result<(), AllocError> {
    push_fetched(text, did)?;
    push_outcome(text, did.outcome)?;
    push_written(text, did.rd)?;
    for access in did.accesses.as_slice() {
        push_access(text, access)?;
    }
    let next = did.next_pc;
    write!(text, " next {next:08x}")
}

/// A record as text.
pub fn record_text(alloc: Global, did: &Record) -> Result<String, AllocError> {
    let mut text = String::new(alloc);
    push_record(&mut text, did)?;
    Ok(text)
}

/// The name of the CSR with a key.
fn csr_of(key: u32) -> &'static str {
    match REGISTERS
        .iter()
        .find(|register| row_of(**register).key() == key)
    {
        Some(register) => row_of(*register).name(),
        None => "?",
    }
}

fn push_key(text: &mut String, key: u32) -> Result<(), AllocError> {
    if key < 32 {
        write!(text, "x{key}")
    } else {
        text.push_str(csr_of(key))
    }
}

fn push_place(
    text: &mut String,
    word: &str,
    hart: usize,
    place: (u32, u32),
) -> Result<(), AllocError> {
    write!(text, "{word} {hart} ")?;
    push_key(text, place.0)?;
    let value = place.1;
    writeln!(text, " {value:08x}")
}

fn push_places(
    text: &mut String,
    word: &str,
    hart: usize,
    places: &[(u32, u32)],
) -> Result<(), AllocError> {
    for place in places {
        push_place(text, word, hart, *place)?;
    }
    Ok(())
}

fn push_fixed(text: &mut String, word: &str, hart: usize, s: &HartState) -> Result<(), AllocError> {
    let (pc, name) = (s.pc, letter_of(s.privilege));
    write!(text, "{word} {hart} pc {pc:08x} priv {name}")?;
    let (mstatus, medeleg, satp) = (s.mstatus, s.medeleg, s.satp);
    writeln!(
        text,
        " mstatus {mstatus:08x} medeleg {medeleg:08x} satp {satp:08x}"
    )
}

/// Each hart's state, and its places.
fn push_states(
    text: &mut String,
    word: &str,
    place: &str,
    states: &[HartState],
) -> Result<(), AllocError> {
    for (hart, s) in states.iter().enumerate() {
        push_fixed(text, word, hart, s)?;
        push_places(text, place, hart, s.places.as_slice())?;
    }
    Ok(())
}

fn push_steps(text: &mut String, hart: usize, records: &[Record]) -> Result<(), AllocError> {
    for (step, did) in records.iter().enumerate() {
        write!(text, "step {hart} {step}")?;
        push_record(text, did)?;
        text.push('\n')?;
    }
    Ok(())
}

fn push_traces(text: &mut String, traces: &[Items<Record>]) -> Result<(), AllocError> {
    for (hart, trace) in traces.iter().enumerate() {
        push_steps(text, hart, trace.as_slice())?;
    }
    Ok(())
}

fn push_words(text: &mut String, words: &[(u32, u32)], last: &[u32]) -> Result<(), AllocError> {
    for ((addr, value), end) in words.iter().zip(last) {
        let (addr, value, end) = (*addr, *value, *end);
        writeln!(text, "word {addr:08x} {value:08x} {end:08x}")?;
    }
    Ok(())
}

fn push_names(text: &mut String, names: &[(u32, u32)]) -> Result<(), AllocError> {
    for (name, value) in names {
        let (name, value) = (*name, *value);
        writeln!(text, "name {name} {value:08x}")?;
    }
    Ok(())
}

fn push_choices(text: &mut String, choices: &[u32]) -> Result<(), AllocError> {
    for way in choices {
        let way = *way;
        writeln!(text, "choice {way}")?;
    }
    Ok(())
}

fn why_of(d: &Dropped) -> &'static str {
    match d.why {
        Why::NoneFits => "none",
        Why::Spent => "spent",
    }
}

fn push_dropped(text: &mut String, dropped: &[Dropped]) -> Result<(), AllocError> {
    for d in dropped {
        let (hart, step, atom, why) = (d.hart, d.step, d.atom, why_of(d));
        writeln!(text, "dropped {hart} {step} {atom} {why}")?;
    }
    Ok(())
}

fn push_harts(text: &mut String, cert: &Cert) -> Result<(), AllocError> {
    push_states(text, "hart", "start", cert.start.as_slice())?;
    push_traces(text, cert.traces.as_slice())?;
    push_states(text, "end", "final", cert.finals.as_slice())
}

fn cert_text(alloc: Global, cert: &Cert) -> Result<String, AllocError> {
    let mut text = String::new(alloc);
    push_harts(&mut text, cert)?;
    push_words(&mut text, cert.words.as_slice(), cert.last.as_slice())?;
    push_names(&mut text, cert.names.as_slice())?;
    push_choices(&mut text, cert.choices.as_slice())?;
    push_dropped(&mut text, cert.dropped.as_slice())?;
    Ok(text)
}

/// A number that tells lists of numbers apart.
pub fn folded(all: u32, n: u32) -> u32 {
    (all ^ n).wrapping_mul(0x9e37_79b1).wrapping_add(1)
}

fn fold_choices(choices: &[u32]) -> u32 {
    let mut all = 0;
    for way in choices {
        all = folded(all, *way);
    }
    all
}

fn fold_dropped(dropped: &[Dropped]) -> u32 {
    let mut all = 0;
    for d in dropped {
        all = folded(all, d.atom);
    }
    all
}

/// What a certificate tells.
#[derive(Drop)]
pub struct Told {
    /// The start, the steps and the end of the harts, and the rest as in a report. A name stands there by its index,
    /// and a choice without its number.
    pub text: String,
    /// The choices and the atoms of the dropped biases, folded.
    pub choices: u32,
    pub dropped: u32,
}

pub fn told_of(alloc: Global, cert: &Cert) -> Result<Told, AllocError> {
    Ok(Told {
        text: cert_text(alloc, cert)?,
        choices: fold_choices(cert.choices.as_slice()),
        dropped: fold_dropped(cert.dropped.as_slice()),
    })
}
