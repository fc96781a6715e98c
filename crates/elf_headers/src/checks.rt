// Tests of what the program headers say.
ghost use Rattle.std.specs.Prelude.{◌≡◌, ◌≤◌, IsTrue, nat_le};
ghost use Rattle.elf_headers.specs.Runs.{total_words};
ghost use Rattle.elf_headers.specs.Internal.Checks.{are_runs, is_table};
ghost use Rattle.tpl_ast.specs.Limits.{file_limits};

use crate::reading::Table;
use crate::runs::Run;
use std::cmp::min;
use tpl_ast::MAX_WORDS;

/// Whether the runs ascend, with a word between them, and end by 2^32.
fn are_runs(runs: &[Run]) -> bool
    ensures { result ≡ are_runs 0 runs.now }
{
    let mut low = 0;
    for run in runs {
        let end = u64::from(run.addr) + 4 * u64::from(run.words);
        if u64::from(run.addr) < low || run.addr % 4 != 0 || run.words == 0 || end > 0x1_0000_0000 {
            return false;
        }
        low = end + 1;
    }
    true
}

/// Whether the runs have at most 60,000 words.
fn are_few(runs: &[Run]) -> bool
    ensures value { result ≡ nat_le (total_words runs.now) file_limits.words }
    ensures small { IsTrue result → total_words runs.now ≤ file_limits.words }
{
    let mut total = 0;
    for run in runs {
        total = min(total + u64::from(run.words), MAX_WORDS as u64 + 1);
    }
    total <= MAX_WORDS as u64
}

#[tactic(auto, unfolding(crate::specs::Internal::Checks::is_table))]
pub fn is_table(table: &Table) -> bool
    ensures value { result ≡ is_table table.now }
    ensures small { IsTrue result → total_words table.now.runs ≤ file_limits.words }
    ensures runs { IsTrue result → IsTrue (are_runs 0 table.now.runs) }
{
    are_runs(table.runs.as_slice()) && are_few(table.runs.as_slice())
}
