// Runs of words that lie one behind the other.
ghost use Rattle.std.specs.Prelude.{◌≡◌, ◌∷◌, ◌++◌, ◌+◌, ◌-◌, ◌^◌, ◌<◌, ◌≤◌, ℕ, List, OnOk, IfOk, length, map};
ghost use Rattle.elf_headers.specs.Runs.{address_of, runs_of, runs_from};
ghost use Rattle.tpl_ast.specs.Limits.{file_limits};

use std::alloc::{AllocError, Global};

/// Words that lie one behind the other: the address of the first one, and how many they are.
#[derive(Clone, Copy, Debug, PartialEq, Eq)]
pub struct Run {
    pub addr: u32,
    pub words: u32,
}

/// The run that is open after one more word.
fn next_run(runs: &mut Vec<Run>, current: Run, addr: u32) -> Result<Run, AllocError>
    requires { current.words < 2 ^ 32 - 1 }
    ensures runs { IfOk result (λ r. (rest : List ℕ) → runs.new.items ++ runs_from r.addr r.words rest
        ≡ runs.old.items ++ runs_from current.addr current.words (addr ∷ rest)) }
    ensures words { IfOk result (λ r. r.words ≤ current.words + 1) }
    ensures count { OnOk result (length runs.new.items ≤ length runs.old.items + 1) }
{
    if u64::from(addr) == u64::from(current.addr) + 4 * u64::from(current.words) {
        return Ok(Run {
            addr: current.addr,
            words: current.words + 1,
        });
    }
    runs.push(current)?;
    Ok(Run { addr, words: 1 })
}

/// The longest runs of the words, in their order.
pub fn list_runs(alloc: Global, words: &[(u32, u32)]) -> Result<Vec<Run>, AllocError>
    requires { length words.now ≤ file_limits.words }
    ensures runs { IfOk result (λ v. v.items ≡ runs_of (map address_of words.now)) }
    ensures count { IfOk result (λ v. length v.items ≤ file_limits.words) }
{
    let mut runs = Vec::new(alloc);
    match words {
        [] => Ok(runs),
        [first, rest @ ..] => {
            let mut current = Run {
                addr: first.0,
                words: 1,
            };
            for word in rest {
                current = next_run(&mut runs, current, word.0)?;
            }
            runs.push(current)?;
            Ok(runs)
        }
    }
}
