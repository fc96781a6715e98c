// What is said of a text that is no template.
ghost use Rattle.std.specs.Prelude.{◌≡◌, ◌++◌, OnOk, IfOk, string_bytes};
ghost use Rattle.trace_text.specs.Faults.{fault_head, fault_line, fault_text, kind_text};

use crate::OutOfMemory;
use std::alloc::{AllocError, Global};
use std::fmt::Write;
use tpl_lang::{Fault, Kind};

fn name_of(kind: Kind) -> &'static str
    ensures { result.now ≡ kind_text kind }
{
    match kind {
        Kind::BadByte => "bad byte",
        Kind::Unexpected => "unexpected",
        Kind::NumberTooLarge => "number too large",
        Kind::UnknownName => "unknown name",
        Kind::DoubleName => "double name",
        Kind::NameTwiceInLeaf => "name twice in leaf",
        Kind::EmptyDomain => "empty domain",
        Kind::TooDeep => "too deep",
        Kind::TooLong => "too long",
        Kind::TooMany => "too many",
        Kind::BadRam => "bad ram",
        Kind::BadStart => "bad start",
    }
}

#[tactic(auto, unfolding(crate::specs::Faults::fault_head))]
fn push_head(text: &mut String, line: u32) -> Result<(), AllocError>
    ensures { OnOk result (string_bytes text.new ≡ string_bytes text.old ++ fault_head line) }
{
    write!(text, "template line {line}: ")
}

#[tactic(auto, unfolding(crate::specs::Faults::fault_line))]
fn push_fault(text: &mut String, line: u32, name: &str) -> Result<(), AllocError>
    ensures { OnOk result (string_bytes text.new ≡ string_bytes text.old ++ fault_line line name.now) }
{
    push_head(text, line)?;
    writeln!(text, "{name}")
}

/// What is wrong with a text as one line: the first faulty line's number, from 1, and the least kind of fault on it.
pub fn fault_text(alloc: Global, fault: &Fault) -> Result<String, OutOfMemory>
    ensures { IfOk result (λ s. string_bytes s ≡ fault_text fault.now) }
{
    let mut text = String::new(alloc);
    push_fault(&mut text, fault.line, name_of(fault.kind))?;
    Ok(text)
}
