// The search for a test of a template.
ghost use Rattle.std.specs.Prelude.{IfOk};
ghost use Rattle.tpl_lang.specs.Parsing.{Parses};
ghost use Rattle.part_state.specs.Beginning.{IsBegun};
ghost use Rattle.part_state.specs.State.{here};
ghost use Rattle.gen_turn.specs.Generating.{IsFound, IsGenerated};

use crate::draft::Draft;
use crate::laws::{done_tests_are_certified, templates_are_ready};
use gen_search::{Answer, OutOfMemory, search};
use part_state::Part;
use rv_system::sound_certificates_are_faithful;
use std::alloc::Global;
use tpl_admit::Cert;
use tpl_ast::Template;
use tpl_lang::template_law;

/// What was made of a template.
#[derive(Drop)]
pub enum Generated {
    /// A test.
    Done(Cert),
    /// All leaf turns were made, and a further one was needed.
    GaveUp {
        /// Leaf turns that nothing fitted.
        none_fits: u64,
        /// Leaf turns of which a problem was larger than its budget.
        spent: u64,
        /// The line of the last dead leaf in the template's text, from 1, or 0 where none was dead.
        last_line: u32,
    },
}

/// The test as a search leaves it, and the search's answer.
#[derive(Drop)]
pub struct Found {
    pub part: Part,
    pub answer: Answer,
    /// How many leaf turns were made.
    pub turned: u64,
}

/// Searches for a test of a template.
fn search_for(
    alloc: Global,
    template: &Template,
    seed: u64,
    nodes: u64,
    turns: u64,
) -> Result<Found, OutOfMemory>
    requires { Parses template.now.text template.now }
    ensures { IfOk result (IsFound template.now seed nodes turns) }
{
    template_law();
    gen_search::template_law();
    templates_are_ready();
    let mut draft = Draft::new(alloc, template, nodes)?;
    let answer = search(alloc, &mut draft, template.harts.as_slice(), seed, turns)?;
    let turned = draft.turns();
    Ok(Found {
        part: draft.into_part(),
        answer,
        turned,
    })
}

/// Makes a test of a template, with the draws of a seed, `nodes` for the budget of each problem, and
/// at most `turns` leaf turns.
pub fn generate(
    alloc: Global,
    template: Template,
    seed: u64,
    nodes: u64,
    turns: u64,
) -> Result<Generated, OutOfMemory>
    requires { Parses template.text template }
    ensures { IfOk result (IsGenerated template seed nodes turns) }
{
    done_tests_are_certified();
    sound_certificates_are_faithful();
    let Found {
        part,
        answer,
        turned: _,
    } = search_for(alloc, &template, seed, nodes, turns)?;
    match answer {
        Answer::Done => match part.finish(alloc, template) {
            Ok(certificate) => Ok(Generated::Done(certificate)),
            Err(_) => Err(OutOfMemory),
        },
        Answer::GaveUp {
            none_fits,
            spent,
            last_line,
        } => Ok(Generated::GaveUp {
            none_fits,
            spent,
            last_line,
        }),
    }
}
