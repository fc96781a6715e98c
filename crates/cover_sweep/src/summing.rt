// The summary of a demo's test.
ghost use Rattle.std.specs.Prelude.{◌≡◌, ◌<◌, ◌^◌, ◌++◌, IfOk, OnOk, encode_utf8, length, string_bytes, sum_by};
ghost use Rattle.std.specs.List.{flat_map};
ghost use Rattle.cover_sweep.specs.Counts.{counts_of};
ghost use Rattle.cover_sweep.specs.Summary.{op_line, ops_text, steps_of, summary_end, summary_head, summary_text};

use crate::OutOfMemory;
use crate::counting::counts;
use rv_hart::Record;
use rv_isa::{Op, name_of};
use std::alloc::{AllocError, Global};
use std::fmt::Write;
use tpl_admit::Cert;
use tpl_ast::Items;

/// How many steps all harts take.
fn steps_in(traces: &[Items<Record>]) -> usize
    requires { sum_by (λ t. length t) traces.now < 2 ^ 32 }
    ensures { result ≡ sum_by (λ t. length t) traces.now }
{
    let mut steps = 0;
    for trace in traces {
        steps += trace.len();
    }
    steps
}

#[tactic(auto, unfolding(crate::specs::Summary::summary_head))]
fn push_head(text: &mut String, n: u32, steps: usize) -> Result<(), AllocError>
    ensures { OnOk result (string_bytes text.new ≡ string_bytes text.old ++ summary_head n steps) }
{
    writeln!(text, "demo {n}\nsteps {steps}")
}

fn push_name(text: &mut String, name: &[u8]) -> Result<(), AllocError>
    ensures { OnOk result (string_bytes text.new ≡ string_bytes text.old ++ flat_map encode_utf8 name.now) }
{
    for letter in name {
        text.push(char::from(*letter))?;
    }
    Ok(())
}

fn push_op(text: &mut String, op: Op, count: u32) -> Result<(), AllocError>
    ensures { OnOk result (string_bytes text.new ≡ string_bytes text.old ++ op_line (op, count)) }
{
    write!(text, "op ")?;
    push_name(text, name_of(op))?;
    writeln!(text, " {count}")?;
    Ok(())
}

#[tactic(auto, unfolding(crate::specs::Summary::ops_text))]
fn push_ops(text: &mut String, counts: &[(Op, u32)]) -> Result<(), AllocError>
    ensures { OnOk result (string_bytes text.new ≡ string_bytes text.old ++ ops_text counts.now) }
{
    for count in counts {
        push_op(text, count.0, count.1)?;
    }
    Ok(())
}

#[tactic(auto, unfolding(crate::specs::Summary::summary_end))]
fn push_end(text: &mut String, words: usize) -> Result<(), AllocError>
    ensures { OnOk result (string_bytes text.new ≡ string_bytes text.old ++ summary_end words) }
{
    writeln!(text, "words {words}\ncheck yes")
}

#[tactic(auto, unfolding(crate::specs::Summary::summary_text))]
fn push_summary(text: &mut String, n: u32, c: &Cert, counts: &[(Op, u32)]) -> Result<(), AllocError>
    requires few { steps_of c.now < 2 ^ 32 }
    requires counts { counts.now ≡ counts_of c.now }
    ensures { OnOk result (string_bytes text.new ≡ string_bytes text.old ++ summary_text n c.now) }
{
    push_head(text, n, steps_in(c.traces.as_slice()))?;
    push_ops(text, counts)?;
    push_end(text, c.words.len())
}

/// The summary of a valid test of the demo template of a number: how many steps it takes, how many of them fetched
/// each operation, and how many words of memory it starts.
pub fn summary(alloc: Global, n: u32, c: &Cert) -> Result<Vec<u8>, OutOfMemory>
    requires { steps_of c.now < 2 ^ 32 }
    ensures { IfOk result (λ text. text.items ≡ summary_text n c.now) }
{
    let counts = counts(alloc, c)?;
    let mut text = String::new(alloc);
    push_summary(&mut text, n, c, &counts)?;
    Ok(text.into_bytes())
}
