// Several relations of a jump's target as one.
ghost use Rattle.std.specs.Prelude.{◌≡◌, ◌≤◌, ◌&&◌, IfOk, count_by, false, ℕ};
ghost use Rattle.rv_isa.specs.declared.operation.Op.{Op};
ghost use Rattle.fd_prob.specs.declared.problem.Assignment.{Assignment};
ghost use Rattle.fd_prob.specs.Relations.{has_target, holds};
ghost use Rattle.case_search.specs.Internal.Stronger.{AreAlike, AreJoined, is_elsewhere, is_target};
ghost use Rattle.case_search.specs.Internal.Targets.{IsGathered, all_hold};
ghost use Rattle.std.specs.List.{list_all};

use dom_set::{OutOfMemory, Set};
use fd_prob::{Items, Rel};
use std::alloc::Global;

/// Relations, and beside them the one into which those of a target were joined so far.
#[derive(Drop)]
struct Targets {
    rels: Items<Rel>,
    /// The pc, and the set in which the target is; None where there was no such relation yet.
    target: Option<(u32, Set)>,
}

impl Targets {
    /// The same with one relation more, which is not joined.
    fn with_rel(self, alloc: Global, rel: &Rel) -> Result<Targets, OutOfMemory>
        ensures holds { IfOk result (λ made. (op : Op) (x : Assignment) → all_hold op x made ≡ (all_hold op x self && holds op x rel.now)) }
        ensures gathered { is_target rel.now ≡ false → IfOk result (λ made. (pc : ℕ) → IsGathered pc self → IsGathered pc made) }
    {
        let Targets { mut rels, target } = self;
        rels.push(rel.copy(alloc)?)?;
        Ok(Targets { rels, target })
    }

    /// The same with one target more. It is joined with those before, if its pc is theirs.
    fn with_target(self, alloc: Global, pc: u32, set: &Set) -> Result<Targets, OutOfMemory>
        ensures holds { IfOk result (λ made. (op : Op) (x : Assignment) → all_hold op x made ≡ (all_hold op x self && has_target op x pc set.now)) }
        ensures gathered { IfOk result (λ made. IsGathered pc self → IsGathered pc made) }
    {
        let Targets { mut rels, target } = self;
        match target {
            None => {
                let set = set.copy(alloc)?;
                Ok(Targets {
                    rels,
                    target: Some((pc, set)),
                })
            }
            Some((first, before)) => {
                if first == pc {
                    let common = before.and(alloc, set)?;
                    return Ok(Targets {
                        rels,
                        target: Some((pc, common)),
                    });
                }
                rels.push(Rel::Target(pc, set.copy(alloc)?))?;
                Ok(Targets {
                    rels,
                    target: Some((first, before)),
                })
            }
        }
    }

    /// The same with one relation more.
    fn with(self, alloc: Global, rel: &Rel) -> Result<Targets, OutOfMemory>
        ensures holds { IfOk result (λ made. (op : Op) (x : Assignment) → all_hold op x made ≡ (all_hold op x self && holds op x rel.now)) }
        ensures gathered { IfOk result (λ made. (pc : ℕ) → is_elsewhere pc rel.now ≡ false → IsGathered pc self → IsGathered pc made) }
    {
        match rel {
            Rel::Target(pc, set) => self.with_target(alloc, *pc, set),
            _ => self.with_rel(alloc, rel),
        }
    }

    /// The relations, with the target as one of them.
    fn into_rels(self) -> Result<Items<Rel>, OutOfMemory>
        ensures holds { IfOk result (λ made. (op : Op) (x : Assignment) → list_all (holds op x) made ≡ all_hold op x self) }
        ensures few { count_by is_target self.rels ≡ 0 → IfOk result (λ made. count_by is_target made ≤ 1) }
    {
        let Targets { mut rels, target } = self;
        if let Some((pc, set)) = target {
            rels.push(Rel::Target(pc, set))?;
        }
        Ok(rels)
    }
}

/// The same relations in memory of their own, but that those of a target at the first one's pc are one.
pub fn with_one_target(alloc: Global, rels: &[Rel]) -> Result<Items<Rel>, OutOfMemory>
    ensures alike { IfOk result (AreAlike rels.now) }
    ensures joined { IfOk result (AreJoined rels.now) }
{
    let mut targets = Targets {
        rels: Items::new(alloc),
        target: None,
    };
    for rel in rels {
        targets = targets.with(alloc, rel)?;
    }
    let rels = targets.into_rels()?;
    Ok(rels)
}
