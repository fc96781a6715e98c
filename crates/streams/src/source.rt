// What a command reads from.
ghost use Rattle.std.specs.Prelude.{◌≡◌, ◌+◌, ◌<◌, ◌≤◌, List, ℕ, length, IfOk, IsErrOf};
ghost use Rattle.std.specs.declared.option.Option.{Option};
ghost use Rattle.std.specs.Io.{ReadsAtMost};
ghost use Rattle.std.specs.Io.KnownBytes.{ReadConsumes, Consumes, IsAtEnd};
ghost use Rattle.streams.specs.Causes.{HasCause, Rose, CountsErrors, MarksFault, EndsAtFault};
ghost use Rattle.streams.specs.Source.{AsksOnce, CountsEmpty, AsksAtMost, TakesAtMost};

use crate::error::{Failed, ReadStop};
use std::alloc::Global;

/// Where bytes come from.
pub trait Source {
    /// The bytes that are left, where it tells them.
    ghost left: { Self → Option (List ℕ) };

    /// How many reads have failed. The count never falls, and may stop at 2^64 - 1.
    ghost faults: { Self → ℕ };

    /// How many reads it was asked for, where it tells that. The number stops at 2^64 - 1.
    ghost reads: { Self → Option ℕ };

    /// How many bytes were left when a read last failed, where it tells that.
    ghost fault_at: { Self → Option ℕ };

    /// How many reads took no byte and did not fail, where it tells that. The number stops at
    /// 2^64 - 1.
    ghost empty: { Self → Option ℕ };

    /// Reads into the front of the buffer, and returns how many bytes it read. 0 on a buffer
    /// with room is the end of the input. `Failed` comes where the count of faults rose, and only
    /// there, and then it read nothing.
    fn read(&mut self, buf: &mut [u8]) -> Result<usize, Failed>
        ensures bound { ReadsAtMost result buf.new }
        ensures bytes { ReadConsumes (left self.old) (left self.new) result buf.new }
        ensures cause { HasCause (faults self.old) (faults self.new) result }
        ensures reads { AsksOnce (reads self.old) (reads self.new) }
        ensures faults { CountsErrors (faults self.old) (faults self.new) result }
        ensures fault_at { MarksFault (left self.new) (fault_at self.old) (fault_at self.new) result }
        ensures empty { CountsEmpty (empty self.old) (empty self.new) result };
}

// The most bytes that one read asks for.
const PIECE: usize = 4096;

/// All that the source has left, up to `limit` bytes. No read asks for more than the limit leaves,
/// and each read but the last takes a byte at least. It stops at the first read that fails, and
/// where there is no memory for the bytes; those that were taken until then are lost.
pub fn read_up_to<S: Source>(
    alloc: Global,
    source: &mut S,
    limit: usize,
) -> Result<Vec<u8>, ReadStop>
    ensures taken { IfOk result (λ bytes.
        Consumes (S.left source.old) (S.left source.new) bytes.items) }
    ensures bound { IfOk result (λ bytes. length bytes.items ≤ limit) }
    ensures whole { IfOk result (λ bytes.
        length bytes.items < limit → IsAtEnd (S.left source.new)) }
    ensures asked { IfOk result (λ bytes.
        AsksAtMost (S.reads source.old) (S.reads source.new) (length bytes.items + 1)) }

    // Also where it stops early.
    ensures taken_at_most { TakesAtMost (S.left source.old) (S.left source.new)
        (S.reads source.old) (S.reads source.new) (S.empty source.old) (S.empty source.new) limit }
    ensures nothing_asked { limit ≡ 0 → source.new ≡ source.old }

    ensures later { S.faults source.old ≤ S.faults source.new }
    ensures fault { IsErrOf result ReadStop.Fault →
        Rose (S.faults source.old) (S.faults source.new) }
    ensures stopped { IsErrOf result ReadStop.Fault → EndsAtFault (S.left source.new)
        (S.fault_at source.new) (S.faults source.old) (S.faults source.new) }
    ensures none_failed { (IsErrOf result ReadStop.Fault → ⊥) →
        S.faults source.new ≡ S.faults source.old }
{
    let mut bytes = Vec::new(alloc);
    let mut buf = [0; PIECE];
    while bytes.len() < limit {
        let want = PIECE.min(limit - bytes.len());
        let count = source.read(&mut buf[..want])?;
        if count == 0 {
            break;
        }
        bytes.extend_from_slice(&buf[..count])?;
    }
    Ok(bytes)
}
