// What a command writes to.
ghost use Rattle.std.specs.Prelude.{◌≡◌, ◌<◌, ◌≤◌, List, ℕ, length, IfOk, OnOk, OnErr};
ghost use Rattle.std.specs.declared.option.Option.{Option};
ghost use Rattle.std.specs.Io.KnownBytes.{WriteAppends, Appends};
ghost use Rattle.streams.specs.Causes.{HasCause, CountsErrors, MarksFault, EndsAtFault};
ghost use Rattle.streams.specs.Sink.{HasRoom, RoomFalls, Uses, GrowsByPrefix, TakesPrefix, Tells};

use crate::error::Failed;

/// Where bytes go.
pub trait Sink {
    /// The bytes that it holds, where it tells them.
    ghost held: { Self → Option (List ℕ) };

    /// How many more bytes it has room for, where it tells that.
    ghost room: { Self → Option ℕ };

    /// How many writes have failed. The count never falls, and may stop at 2^64 - 1.
    ghost faults: { Self → ℕ };

    /// How many bytes it held when a write last failed, where it tells that.
    ghost fault_at: { Self → Option ℕ };

    /// Takes a front of the bytes, and returns how many it took: 0 only of none. `Failed` comes
    /// where the count of faults rose, and only there, and then it took nothing.
    fn write(&mut self, bytes: &[u8]) -> Result<usize, Failed>
        requires { HasRoom (room self.old) (length bytes.now) }
        ensures bound { IfOk result (λ n. n ≤ length bytes.now) }
        ensures some { IfOk result (λ n. 0 < length bytes.now → 0 < n) }
        ensures bytes { WriteAppends (held self.old) (held self.new) result bytes.now }
        ensures room { Uses (room self.old) (room self.new) result }
        ensures cause { HasCause (faults self.old) (faults self.new) result }
        ensures faults { CountsErrors (faults self.old) (faults self.new) result }
        ensures fault_at { MarksFault (held self.new) (fault_at self.old) (fault_at self.new) result };
}

/// Writes the whole text. It stops at the first write that fails: the sink then holds a front of
/// the text more, and takes nothing after that.
pub fn write_whole<K: Sink>(sink: &mut K, text: &[u8]) -> Result<(), Failed>
    requires { HasRoom (K.room sink.old) (length text.now) }
    ensures ok { OnOk result (Appends (K.held sink.old) (K.held sink.new) text.now) }
    ensures room { OnOk result (RoomFalls (K.room sink.old) (K.room sink.new) (length text.now)) }

    ensures err { OnErr result (GrowsByPrefix (K.held sink.old) (K.held sink.new) text.now) }
    ensures room_on_err { OnErr result (TakesPrefix (K.held sink.old) (K.held sink.new)
        (K.room sink.old) (K.room sink.new) text.now) }

    ensures stopped { OnErr result (EndsAtFault (K.held sink.new) (K.fault_at sink.new)
        (K.faults sink.old) (K.faults sink.new)) }

    ensures told { Tells (K.held sink.old) (K.held sink.new) text.now (K.fault_at sink.new)
        (K.faults sink.old) (K.faults sink.new) }
    ensures cause { HasCause (K.faults sink.old) (K.faults sink.new) result }
    ensures faults { CountsErrors (K.faults sink.old) (K.faults sink.new) result }
    ensures nothing_asked { length text.now ≡ 0 → sink.new ≡ sink.old }
{
    let mut rest = text;
    while !rest.is_empty() {
        let count = sink.write(rest)?;
        rest = &rest[count..];
    }
    Ok(())
}
