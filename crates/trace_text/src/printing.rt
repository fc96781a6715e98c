// The report of a certificate.
ghost use Rattle.std.specs.Prelude.{◌≡◌, ◌++◌, length, OnOk, IfOk, string_bytes};
ghost use Rattle.trace_text.specs.Report.{word_line, words_text, harts_line, report_text};

use crate::OutOfMemory;
use crate::harts::push_harts;
use crate::rest::{push_choices, push_dropped, push_names};
use std::alloc::{AllocError, Global};
use std::fmt::Write;
use tpl_admit::Cert;

#[tactic(auto, unfolding(crate::specs::Report::word_line))]
fn push_word(text: &mut String, word: (u32, u32), last: u32) -> Result<(), AllocError>
    ensures { OnOk result (string_bytes text.new ≡ string_bytes text.old ++ word_line (word, last)) }
{
    let (address, value) = word;
    writeln!(text, "word {address:08x} {value:08x} {last:08x}")
}

#[tactic(auto, unfolding(crate::specs::Report::words_text))]
fn push_words(text: &mut String, words: &[(u32, u32)], last: &[u32]) -> Result<(), AllocError>
    ensures { OnOk result (string_bytes text.new ≡ string_bytes text.old ++ words_text words.now last.now) }
{
    let count = words.len().min(last.len());
    for at in 0..count {
        push_word(text, words[at], last[at])?;
    }
    Ok(())
}

#[tactic(auto, unfolding(crate::specs::Report::harts_line))]
fn push_count(text: &mut String, harts: usize) -> Result<(), AllocError>
    ensures { OnOk result (string_bytes text.new ≡ string_bytes text.old ++ harts_line harts) }
{
    writeln!(text, "harts {harts}")
}

/// Writes the report of a certificate.
#[tactic(auto, unfolding(crate::specs::Report::report_text))]
fn push_report(text: &mut String, cert: &Cert) -> Result<(), AllocError>
    requires traces { length cert.now.traces ≡ length cert.now.start }
    requires finals { length cert.now.finals ≡ length cert.now.start }
    ensures { OnOk result (string_bytes text.new ≡ string_bytes text.old ++ report_text cert.now) }
{
    push_count(text, cert.start.len())?;
    push_harts(text, cert)?;
    push_words(text, cert.words.as_slice(), cert.last.as_slice())?;
    push_names(text, cert.template.names.as_slice(), cert.names.as_slice())?;
    push_choices(text, cert.choices.as_slice())?;
    push_dropped(text, cert.dropped.as_slice())
}

/// The report of a certificate: its harts in order, each with its start, its steps and its end, and then its words of
/// memory, its names, its choices and its dropped biases.
pub fn report(alloc: Global, cert: &Cert) -> Result<String, OutOfMemory>
    requires traces { length cert.now.traces ≡ length cert.now.start }
    requires finals { length cert.now.finals ≡ length cert.now.start }
    ensures { IfOk result (λ s. string_bytes s ≡ report_text cert.now) }
{
    let mut text = String::new(alloc);
    push_report(&mut text, cert)?;
    Ok(text)
}
