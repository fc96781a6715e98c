// Runs of a certificate's system by a schedule.
ghost use Rattle.std.specs.Prelude.{◌<◌, ◌≡◌, All, IfOk, length};
ghost use Rattle.tpl_admit.specs.WellFormed.{IsWellFormed};

use row_language::{Answer, Stop};
use rv_system::{Stop as RunStop, System};
use std::alloc::Global;
use std::fmt::Write;
use tpl_admit::Cert;
use trace_text::events;

/// The number of a hart, of so many.
fn hart_of(word: &str, count: usize) -> Result<u8, Stop>
    ensures { IfOk result (λ k. k < count) }
{
    let Ok(k) = word.parse::<u8>() else {
        return Err(Stop::Value);
    };
    if usize::from(k) >= count {
        return Err(Stop::Value);
    }
    Ok(k)
}

/// The numbers of harts, of so many.
fn schedule_of(alloc: Global, words: &[String], count: usize) -> Result<Vec<u8>, Stop>
    ensures { IfOk result (λ v. All (λ k. k < count) v.items) }
{
    let mut schedule = Vec::new(alloc);
    for word in words {
        schedule.push(hart_of(word.as_str(), count)?)?;
    }
    Ok(schedule)
}

/// The fill that the first word is.
fn fill_of(words: &[String]) -> Result<u32, Stop> {
    let word = words.first().map(|word| word.as_str()).unwrap_or("");
    let Ok(fill) = word.parse::<u32>() else {
        return Err(Stop::Value);
    };
    Ok(fill)
}

/// Where each hart stands.
fn push_harts(text: &mut String, system: &System) -> Result<(), Stop> {
    for hart in &system.harts {
        writeln!(text, "pc {:08x}", hart.pc)?;
    }
    Ok(())
}

/// The events of a run from the system of a certificate's start, or the position at which it stops; and then where each
/// hart stands. The first word is the fill of what the start doesn't give, the others are the schedule.
pub fn run_by(alloc: Global, cert: &Cert, words: &[String]) -> Result<Answer, Stop>
    requires { IsWellFormed cert.now }
{
    let fill = fill_of(words)?;
    let Ok(mut system) = System::of(alloc, cert, fill) else {
        return Err(Stop::OutOfMemory);
    };
    let schedule = schedule_of(alloc, words.get(1..).unwrap_or(&[]), system.harts.len())?;
    let mut text = String::new(alloc);
    match system.run(alloc, schedule.as_slice()) {
        Ok(steps) => {
            let Ok(lines) = events(alloc, steps.as_slice(), None) else {
                return Err(Stop::OutOfMemory);
            };
            text.push_str(lines.as_str())?;
        }
        Err(RunStop::Outside { at }) => writeln!(text, "outside at {at}")?,
        Err(RunStop::OutOfMemory) => return Err(Stop::OutOfMemory),
    }
    push_harts(&mut text, &system)?;
    Answer::of(alloc, 0, text.as_bytes(), &[])
}
