// Whether what a row gives is what it has to give.
use crate::answer::{Answer, Program};
use crate::row::{Each, Made, Row, Told, Wanted};
use crate::stop::Stop;
use std::alloc::Global;

/// Whether these are just so many first bytes of the others.
fn is_front(bytes: &[u8], count: usize, of: &[u8]) -> bool {
    bytes.len() == count && of.starts_with(bytes)
}

/// How many lines end in these bytes.
fn lines_in(bytes: &[u8]) -> usize {
    bytes.iter().filter(|byte| **byte == b'\n').count()
}

/// The lines of the steps of one hart in a text.
fn steps_of(alloc: Global, text: &str, hart: u8) -> Result<Vec<u8>, Stop> {
    let head = format!(in alloc; "step {hart} ")?;
    let mut steps = Vec::new(alloc);
    for line in text.lines() {
        if line.starts_with(head.as_str()) {
            steps.extend_from_slice(line.as_bytes())?;
            steps.push(b'\n')?;
        }
    }
    Ok(steps)
}

/// Whether a text is that of steps alone, and has those of a report, each hart's in their order.
fn are_steps(alloc: Global, bytes: &[u8], report: &[u8]) -> Result<bool, Stop> {
    let Ok(text) = str::from_utf8(bytes) else {
        return Err(Stop::Value);
    };
    let Ok(report) = str::from_utf8(report) else {
        return Err(Stop::Value);
    };
    let mut count = 0usize;
    for hart in 0..4 {
        let steps = steps_of(alloc, text, hart)?;
        if steps != steps_of(alloc, report, hart)? {
            return Ok(false);
        }
        count = count.wrapping_add(steps.len());
    }
    Ok(count == bytes.len())
}

/// Whether the bytes are those that have to stand in a sink.
fn is_wanted(
    alloc: Global,
    row: &Row,
    told: &Told,
    input: &[u8],
    bytes: &[u8],
) -> Result<bool, Stop> {
    match told.wanted {
        Wanted::Any => Ok(true),
        Wanted::Text => Ok(bytes == told.text.as_slice()),
        Wanted::Input => Ok(bytes == input),
        Wanted::Size(size) => Ok(bytes.len() == size),
        Wanted::Lines(count) => Ok(lines_in(bytes) == count),
        Wanted::Front(count) => Ok(is_front(bytes, count, &told.text)),
        Wanted::File => Ok(bytes == row.parts.file(alloc)?.as_slice()),
        Wanted::FileFront(count) => Ok(is_front(bytes, count, &row.parts.file(alloc)?)),
        Wanted::Steps => are_steps(alloc, bytes, &row.before),
        Wanted::Report => Ok(bytes == row.before.as_slice()),
    }
}

/// Whether an answer is one that the row may give.
fn is_right(alloc: Global, row: &Row, input: &[u8], given: &Answer) -> Result<bool, Stop> {
    Ok(
        row.statuses.contains(&given.status)
            && is_wanted(alloc, row, &row.out, input, &given.out)?
            && is_wanted(alloc, row, &row.report, input, &given.report)?,
    )
}

/// What is said of an answer that is another one, or nothing.
fn said_of(alloc: Global, row: &Row, input: &[u8], given: &Answer) -> Result<Option<String>, Stop> {
    if is_right(alloc, row, input, given)? {
        return Ok(None);
    }
    let out = String::from_utf8_lossy(alloc, &given.out)?;
    let report = String::from_utf8_lossy(alloc, &given.report)?;
    Ok(Some(format!(in alloc;
        "row {}: status {}, out {out:?}, report {report:?}",
        row.name, given.status
    )?))
}

/// The input that is made so of another one with a number.
fn made_of(alloc: Global, input: &[u8], made: Made, n: usize) -> Result<Vec<u8>, Stop> {
    match made {
        Made::Front => {
            let Some(front) = input.get(..n) else {
                return Err(Stop::Place);
            };
            Ok(front.to_vec(alloc)?)
        }
        Made::Flip => {
            let mut flipped = input.to_vec(alloc)?;
            let Some(byte) = flipped.get_mut(n) else {
                return Err(Stop::Place);
            };
            *byte ^= 1;
            Ok(flipped)
        }
    }
}

/// What came of a row.
#[derive(Drop)]
pub struct Outcome {
    /// What is said of it where it gives something else than it has to.
    pub wrong: Option<String>,
    /// What it gave, where it is run once.
    pub given: Option<Answer>,
}

fn outcome_of<P: Program>(
    alloc: Global,
    program: &P,
    row: &Row,
    input: &[u8],
) -> Result<Outcome, Stop> {
    let given = program.answer(alloc, row, input)?;
    Ok(Outcome {
        wrong: said_of(alloc, row, input, &given)?,
        given: Some(given),
    })
}

/// What is said of the first input that is made so for which the row gives something else than it has to, or nothing.
fn first_wrong<P: Program>(
    alloc: Global,
    program: &P,
    row: &Row,
    made: Made,
    from: usize,
    to: usize,
) -> Result<Option<String>, Stop> {
    let whole = row.whole_input(alloc)?;
    for n in from..to {
        let input = made_of(alloc, &whole, made, n)?;
        let outcome = outcome_of(alloc, program, row, &input)?;
        if outcome.wrong.is_some() {
            return Ok(outcome.wrong);
        }
    }
    Ok(None)
}

/// Runs a row.
pub fn run<P: Program>(alloc: Global, program: &P, row: &Row) -> Result<Outcome, Stop> {
    match row.each {
        Each::Whole => {
            let input = row.whole_input(alloc)?;
            outcome_of(alloc, program, row, &input)
        }
        Each::Made(made, from, to) => Ok(Outcome {
            wrong: first_wrong(alloc, program, row, made, from, to)?,
            given: None,
        }),
    }
}
