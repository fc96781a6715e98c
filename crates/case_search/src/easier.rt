// Cases with fewer relations.
ghost use Rattle.std.specs.Prelude.{◌≡◌, IfOk, length};
ghost use Rattle.fd_prob.specs.Fitting.{IsCase};
ghost use Rattle.case_search.specs.Internal.Easier.{AreBlind, IsEasier};

use dom_set::{OutOfMemory, Set};
use fd_prob::{Case, Items, Rel, Slot, mentions};
use std::alloc::Global;

/// The relations that do not look at the variable.
fn blind_rels(alloc: Global, rels: &[Rel], slot: Slot) -> Result<Vec<Rel>, OutOfMemory>
    ensures { IfOk result (λ made. AreBlind slot rels.now made.items) }
{
    let mut made = Vec::new(alloc);
    for rel in rels {
        if !mentions(rel, slot) {
            made.push(rel.copy(alloc)?)?;
        }
    }
    Ok(made)
}

/// So many empty sets as a case has domains. They take no memory yet.
fn no_domains(alloc: Global) -> Result<Vec<Set>, OutOfMemory>
    ensures { IfOk result (λ made. length made.items ≡ 14) }
{
    let mut made = Vec::new(alloc);
    while made.len() < 14 {
        made.push(Set::new(alloc))?;
    }
    Ok(made)
}

/// A case of the same operation with the relations that do not look at the variable. Its own domains are empty.
pub fn without(alloc: Global, case: &Case, slot: Slot) -> Result<Case, OutOfMemory>
    requires { IsCase case.now }
    ensures case { IfOk result IsCase }
    ensures easier { IfOk result (IsEasier slot case.now) }
{
    let doms = no_domains(alloc)?;
    let rels = blind_rels(alloc, case.rels.as_slice(), slot)?;
    Ok(Case {
        op: case.op,
        doms: Items::from_vec(doms),
        rels: Items::from_vec(rels),
    })
}
