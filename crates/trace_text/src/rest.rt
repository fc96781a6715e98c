// The lines of names, choices and dropped biases.
ghost use Rattle.std.specs.Prelude.{◌≡◌, ◌++◌, OnOk, string_bytes};
ghost use Rattle.tpl_admit.specs.Sizes.{name_of};
ghost use Rattle.trace_text.specs.Rest.{choice_line, choices_text, dropped_line, dropped_text, name_line, name_text, names_text, why_text};

use std::alloc::AllocError;
use std::fmt::Write;
use tpl_admit::{Dropped, Why};
use tpl_ast::NameDecl;

/// The letters of the name with an index.
fn name_of(names: &[NameDecl], index: u32) -> &[u8]
    ensures { result.now ≡ name_of names.now index }
{
    match names.get(index as usize) {
        Some(name) => name.name.as_slice(),
        None => &[],
    }
}

#[tactic(auto, unfolding(crate::specs::Rest::name_text))]
fn push_name(text: &mut String, name: &[u8]) -> Result<(), AllocError>
    ensures { OnOk result (string_bytes text.new ≡ string_bytes text.old ++ name_text name.now) }
{
    for letter in name {
        text.push(char::from(*letter))?;
    }
    Ok(())
}

#[tactic(auto, unfolding(crate::specs::Rest::name_line))]
fn push_name_line(
    text: &mut String,
    names: &[NameDecl],
    entry: (u32, u32),
) -> Result<(), AllocError>
    ensures { OnOk result (string_bytes text.new ≡ string_bytes text.old ++ name_line names.now entry) }
{
    let (index, value) = entry;
    write!(text, "name ")?;
    push_name(text, name_of(names, index))?;
    writeln!(text, " {value:08x}")
}

/// Writes the names that have a value.
#[tactic(auto, unfolding(crate::specs::Rest::names_text))]
pub fn push_names(
    text: &mut String,
    names: &[NameDecl],
    values: &[(u32, u32)],
) -> Result<(), AllocError>
    ensures { OnOk result (string_bytes text.new ≡ string_bytes text.old ++ names_text names.now values.now) }
{
    for entry in values {
        push_name_line(text, names, *entry)?;
    }
    Ok(())
}

#[tactic(auto, unfolding(crate::specs::Rest::choice_line))]
fn push_choice(text: &mut String, at: usize, way: u32) -> Result<(), AllocError>
    ensures { OnOk result (string_bytes text.new ≡ string_bytes text.old ++ choice_line at way) }
{
    writeln!(text, "choice {at} {way}")
}

/// Writes the choices, numbered from 0.
#[tactic(auto, unfolding(crate::specs::Rest::choices_text))]
pub fn push_choices(text: &mut String, choices: &[u32]) -> Result<(), AllocError>
    ensures { OnOk result (string_bytes text.new ≡ string_bytes text.old ++ choices_text choices.now) }
{
    for at in 0..choices.len() {
        push_choice(text, at, choices[at])?;
    }
    Ok(())
}

fn why_of(why: Why) -> &'static str
    ensures { result.now ≡ why_text why }
{
    match why {
        Why::NoneFits => "none",
        Why::Spent => "spent",
    }
}

#[tactic(auto, unfolding(crate::specs::Rest::dropped_line))]
fn push_drop(text: &mut String, dropped: &Dropped) -> Result<(), AllocError>
    ensures { OnOk result (string_bytes text.new ≡ string_bytes text.old ++ dropped_line dropped.now) }
{
    let (hart, step, atom) = (dropped.hart, dropped.step, dropped.atom);
    let why = why_of(dropped.why);
    write!(text, "dropped {hart} {step} {atom}")?;
    writeln!(text, " {why}")
}

/// Writes the biases that aren't kept.
#[tactic(auto, unfolding(crate::specs::Rest::dropped_text))]
pub fn push_dropped(text: &mut String, dropped: &[Dropped]) -> Result<(), AllocError>
    ensures { OnOk result (string_bytes text.new ≡ string_bytes text.old ++ dropped_text dropped.now) }
{
    for one in dropped {
        push_drop(text, one)?;
    }
    Ok(())
}
