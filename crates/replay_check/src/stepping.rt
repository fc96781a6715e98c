// The steps of a hart against printed records.
ghost use Rattle.std.specs.Prelude.{◌≡◌, ◌↔◌, ℕ, ◌≤◌, All, IsTrue, IfSome, length};
ghost use Rattle.rv_mem.specs.Part.{part_at};
ghost use Rattle.rv_script.specs.Memory.{memory_after};
ghost use Rattle.rv_hart.specs.Effects.{IsInWord, seen_after};
ghost use Rattle.tpl_admit.specs.Races.{footprint_of};
ghost use Rattle.replay_check.specs.Internal.Memory.{Shows, WhereShown, AreInWords};
ghost use Rattle.replay_check.specs.Internal.Replay.{IsSameChange, IsSameRecord, Takes, Strays, TakesAll, StraysAt};
ghost use Rattle.tpl_ast.specs.Limits.{most_records};

use crate::verdict::Kind;
use rv_hart::{Hart, Record, Stepped, step};
use rv_mem::PartMem;

/// The first step that is not that of its record.
#[derive(Clone, Copy)]
pub struct Wrong {
    pub kind: u8,
    pub step: u32,
}

/// Whether two steps made the same accesses.
fn has_same_accesses(one: &Record, other: &Record) -> bool
    ensures { IsTrue result ↔ (one.now.accesses ≡ other.now.accesses) }
{
    one.accesses.as_slice() == other.accesses.as_slice()
}

/// Whether two steps did the same to their harts.
fn has_same_change(one: &Record, other: &Record) -> bool
    ensures { IsTrue result ↔ IsSameChange one.now other.now }
{
    one.outcome == other.outcome && one.rd == other.rd && one.next_pc == other.next_pc
}

/// Whether two records are the same.
fn is_same(one: &Record, other: &Record) -> bool
    ensures { IsTrue result ↔ IsSameRecord one.now other.now }
{
    one.pc == other.pc
        && one.privilege == other.privilege
        && one.word == other.word
        && has_same_change(one, other)
        && has_same_accesses(one, other)
}

/// Does nothing. Its contract says how many registers a hart has.
fn count_registers(hart: &Hart)
    ensures { length hart.now.regs ≡ 32 }
{
    let _: &[Option<u32>] = &hart.regs;
}

/// Takes the hart's next step, and says of which kind the failure is where it is not that of the record.
fn take(hart: &mut Hart, memory: &mut PartMem, done: &Record) -> Option<u8>
    ensures right { WhereShown (part_at memory.old) (λ ram given m. result ≡ None → Takes ram given m hart.old hart.new done.now) }
    ensures wrong { WhereShown (part_at memory.old) (λ ram given m. (kind : ℕ) → result ≡ Some kind → Strays ram given m hart.old done.now kind) }
    ensures memory { result ≡ None → (n : ℕ) → part_at memory.new n ≡ seen_after done.now.accesses (part_at memory.old) n }
    ensures words { result ≡ None → All IsInWord done.now.accesses }
{
    count_registers(hart);
    match step(hart, memory) {
        Stepped::Did(did) => {
            if is_same(&did, done) {
                None
            } else {
                Some(Kind::OtherRecord as u8)
            }
        }
        Stepped::Missing(_) => Some(Kind::MissingPlace as u8),
        Stepped::Outside => Some(Kind::NoStep as u8),
    }
}

/// Takes the hart's steps, and says where they first are not those of the records.
pub fn take_all(hart: &mut Hart, memory: &mut PartMem, records: &[Record]) -> Option<Wrong>
    requires count { length records.now ≤ most_records }
    ensures right { WhereShown (part_at memory.old) (λ ram given m. result ≡ None → TakesAll ram given m hart.old hart.new records.now) }
    ensures wrong { WhereShown (part_at memory.old) (λ ram given m. IfSome result (λ w. StraysAt ram given m hart.old records.now w.kind w.step)) }
    ensures memory { WhereShown (part_at memory.old) (λ ram given m. result ≡ None → Shows ram given (memory_after (footprint_of records.now) m) (part_at memory.new)) }
    ensures words { WhereShown (part_at memory.old) (λ ram given m. result ≡ None → AreInWords records.now) }
{
    for (i, done) in records.iter().enumerate() {
        if let Some(kind) = take(hart, memory, done) {
            return Some(Wrong {
                kind,
                step: i as u32,
            });
        }
    }
    None
}
