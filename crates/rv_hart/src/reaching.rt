// Addresses and what they lead to.
ghost use Rattle.std.specs.Prelude.{◌≡◌, ◌+◌, ◌≤◌, ◌/◌, ◌%◌, ◌^◌, ◌++◌, All, IfErr, IfOk, length, map, true};
ghost use Rattle.rv_mem.specs.Seen.{is_there};
ghost use Rattle.sv_walk.specs.Clauses.{AreAligned, entry_access};
ghost use Rattle.rv_hart.specs.Clauses.{IsSound};
ghost use Rattle.rv_hart.specs.Effects.{IsInWord};
ghost use Rattle.rv_hart.specs.Machine.{data_view, fetch_view};
ghost use Rattle.rv_hart.specs.Internal.Reaching.{IsReached};
ghost use Rattle.rv_hart.specs.Sighted.{sighted};
ghost use Rattle.rv_hart.specs.View.{fixed_of, known};

use crate::looked::Looked;
use crate::privileged::trap;
use crate::seeing::{Sighted, walk_with};
use crate::{Hart, Words};
use rv_script::{Access, Accesses, Place, Role};
use sv_walk::{Kind, View, WalkEnd};

/// What the translation of a fetch goes by.
pub fn fetch_view<M: Words>(h: &Hart, m: &M) -> View
    ensures { result ≡ fetch_view (fixed_of h.now (M.at m.now)) }
{
    View {
        satp: h.csrs.satp(),
        privilege: h.privilege,
        sum: h.csrs.sum(),
        mxr: h.csrs.mxr(),
    }
}

/// What the translation of a load or store goes by.
pub fn data_view<M: Words>(h: &Hart, m: &M) -> View
    ensures { result ≡ data_view (fixed_of h.now (M.at m.now)) }
{
    View {
        satp: h.csrs.satp(),
        privilege: h.csrs.effective_privilege(h.privilege),
        sum: h.csrs.sum(),
        mxr: h.csrs.mxr(),
    }
}

/// Puts the entries of a walk into the log.
fn note(entries: &[(u32, u32)], log: &mut Accesses)
    requires room { length log.old + length entries.now ≤ 8 }
    requires aligned { AreAligned entries.now }
    ensures entries { log.new ≡ log.old ++ map entry_access entries.now }
    ensures words { All IsInWord log.old → All IsInWord log.new }
{
    for entry in entries {
        log.push(Access {
            role: Role::Walk,
            addr: entry.0,
            size: 4,
            value: entry.1,
        });
    }
}

/// The physical address that an address leads to, with the entries that tell it in the log; or what the step does
/// where it leads to none. The walk sees the sights' words.
pub fn reach<M: Sighted>(
    h: &Hart,
    m: &M,
    word: u32,
    v: View,
    kind: Kind,
    va: u32,
    log: &mut Accesses,
) -> Result<u32, Looked>
    requires { length log.old ≤ 6 }
    ensures answer { IsReached (sighted (M.sights m.now)) (known h.now (M.at m.now)) (fixed_of h.now (M.at m.now)) word v kind va log.old log.new result }
    ensures sound { IfErr result (IsSound h.now.privilege h.now.csrs) }
    ensures words { All IsInWord log.old → All IsInWord log.new }
    ensures few { length log.new ≤ length log.old + 2 }
    ensures there { IfOk result (λ pa. is_there (M.at m.now (pa / 4)) ≡ true) }
    ensures offset { IfOk result (λ pa. pa % 2 ^ 12 ≡ va % 2 ^ 12) }
{
    let walk = walk_with(m, v, va, kind);
    note(walk.ptes.as_slice(), log);
    match walk.outcome {
        WalkEnd::Pa(pa) => Ok(pa),
        WalkEnd::Fault(cause) => Err(trap(h, m, word, cause, va, log)),
        WalkEnd::Missing(addr) => Err(Looked::Missing(Place::Word(addr))),
        WalkEnd::Outside => Err(Looked::Outside),
    }
}
