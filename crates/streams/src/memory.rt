// Sources and sinks over memory.
ghost use Rattle.std.specs.Prelude.{◌≡◌, ◌+◌, ◌<◌, ◌≤◌, ◌↔◌, [], ◌++◌, length, min, Some, IsErr, IfOk, Contains};
ghost use Rattle.std.specs.Io.{ReadsAtMost};
ghost use Rattle.std.specs.Io.KnownBytes.{ReadConsumes, WriteAppends};
ghost use Rattle.streams.specs.Causes.{HasCause, CountsErrors, MarksFault, one_more};
ghost use Rattle.streams.specs.Source.{AsksOnce, CountsEmpty};
ghost use Rattle.streams.specs.Sink.{Uses};

use crate::error::{Failed, OutOfMemory};
use crate::sink::Sink;
use crate::source::Source;
use crate::storage::{CallPlan, Stored, Unread};
use std::alloc::Global;

/// Bytes in memory. A read gives all that the buffer has room for, and never fails.
#[derive(Drop)]
pub struct SureSource {
    unread: Unread,
}

impl SureSource {
    ghost use Rattle.streams.specs.Memory.{sure_source_left};

    /// A source of these bytes.
    pub fn new(bytes: Vec<u8>) -> Self
        ensures { sure_source_left result ≡ bytes.items }
    {
        SureSource {
            unread: Unread::new(bytes),
        }
    }
}

impl Source for SureSource {
    ghost use Rattle.std.specs.Prelude.{Some, None};
    ghost use Rattle.streams.specs.Memory.{sure_source_left};

    ghost left = { λ s. Some (sure_source_left s) };

    ghost faults = { λ _. 0 };

    ghost reads = { λ _. None };

    ghost fault_at = { λ _. None };

    ghost empty = { λ _. None };

    fn read(&mut self, buf: &mut [u8]) -> Result<usize, Failed>
        ensures bound { ReadsAtMost result buf.new }
        ensures bytes { ReadConsumes (Some (sure_source_left self.old))
            (Some (sure_source_left self.new)) result buf.new }
        ensures all { result ≡ Ok (min (length buf.old) (length (sure_source_left self.old))) }
    {
        let most = buf.len();
        Ok(self.unread.give(buf, most))
    }
}

/// Bytes in memory, with room for a fixed number. A write takes every byte, and never fails.
#[derive(Drop)]
pub struct SureSink {
    stored: Stored,
}

impl SureSink {
    ghost use Rattle.streams.specs.Memory.{sure_sink_held, sure_sink_room};

    /// A sink with no bytes and room for `n`. It fails where there is no memory for them.
    pub fn with_room(alloc: Global, n: usize) -> Result<Self, OutOfMemory>
        ensures empty { IfOk result (λ s. sure_sink_held s ≡ []) }
        ensures room { IfOk result (λ s. sure_sink_room s ≡ n) }
    {
        Ok(SureSink {
            stored: Stored::with_room(alloc, n)?,
        })
    }

    /// The bytes that it holds.
    pub fn bytes(&self) -> &[u8]
        ensures { result.now ≡ sure_sink_held self.now }
    {
        self.stored.bytes()
    }
}

impl Sink for SureSink {
    ghost use Rattle.std.specs.Prelude.{Some, None};
    ghost use Rattle.streams.specs.Memory.{sure_sink_held, sure_sink_room};

    ghost held = { λ s. Some (sure_sink_held s) };

    ghost room = { λ s. Some (sure_sink_room s) };

    ghost faults = { λ _. 0 };

    ghost fault_at = { λ _. None };

    fn write(&mut self, bytes: &[u8]) -> Result<usize, Failed>
        requires { length bytes.now ≤ sure_sink_room self.old }
        ensures bytes { sure_sink_held self.new ≡ sure_sink_held self.old ++ bytes.now }
        ensures room { sure_sink_room self.new + length bytes.now ≡ sure_sink_room self.old }
        ensures all { result ≡ Ok (length bytes.now) }
    {
        self.stored.push(bytes);
        Ok(bytes.len())
    }
}

/// Bytes in memory that are read at most `chunk` at a time. The listed calls fail.
#[derive(Drop)]
pub struct MemSource {
    unread: Unread,
    plan: CallPlan,
    fault_at: usize,
    empty: u64,
}

impl MemSource {
    ghost use Rattle.streams.specs.Memory.{mem_source_left, mem_source_chunk, mem_source_fails, mem_source_calls, mem_source_faults, mem_source_fault_at, mem_source_empty};

    /// A source of these bytes. `fails` has the numbers of the reads that fail, counted from 1.
    pub fn new(bytes: Vec<u8>, chunk: usize, fails: Vec<u64>) -> Self
        requires { 0 < chunk }
        ensures left { mem_source_left result ≡ bytes.items }
        ensures chunk { mem_source_chunk result ≡ chunk }
        ensures fails { mem_source_fails result ≡ fails.items }
        ensures calls { mem_source_calls result ≡ 0 }
        ensures faults { mem_source_faults result ≡ 0 }
        ensures fault_at { mem_source_fault_at result ≡ 0 }
        ensures empty { mem_source_empty result ≡ 0 }
    {
        MemSource {
            unread: Unread::new(bytes),
            plan: CallPlan::new(chunk, fails),
            fault_at: 0,
            empty: 0,
        }
    }
}

impl Source for MemSource {
    ghost use Rattle.std.specs.Prelude.{Some};
    ghost use Rattle.streams.specs.Memory.{mem_source_left, mem_source_chunk, mem_source_fails, mem_source_calls, mem_source_faults, mem_source_fault_at, mem_source_empty};

    ghost left = { λ s. Some (mem_source_left s) };

    ghost faults = { λ s. mem_source_faults s };

    ghost reads = { λ s. Some (mem_source_calls s) };

    ghost fault_at = { λ s. Some (mem_source_fault_at s) };

    ghost empty = { λ s. Some (mem_source_empty s) };

    fn read(&mut self, buf: &mut [u8]) -> Result<usize, Failed>
        ensures bound { ReadsAtMost result buf.new }
        ensures bytes { ReadConsumes (Some (mem_source_left self.old))
            (Some (mem_source_left self.new)) result buf.new }
        ensures cause { HasCause (mem_source_faults self.old) (mem_source_faults self.new) result }
        ensures reads { AsksOnce (Some (mem_source_calls self.old))
            (Some (mem_source_calls self.new)) }

        // The number of this call is the count of calls after it.
        ensures fails { IsErr result ↔
            Contains (mem_source_fails self.old) (mem_source_calls self.new) }
        ensures faults { CountsErrors (mem_source_faults self.old)
            (mem_source_faults self.new) result }
        ensures fault_at { MarksFault (Some (mem_source_left self.new))
            (Some (mem_source_fault_at self.old)) (Some (mem_source_fault_at self.new)) result }
        ensures empty { CountsEmpty (Some (mem_source_empty self.old))
            (Some (mem_source_empty self.new)) result }
        ensures count { IfOk result (λ n. n ≡ min (mem_source_chunk self.old)
            (min (length buf.old) (length (mem_source_left self.old)))) }
        ensures chunk_kept { mem_source_chunk self.new ≡ mem_source_chunk self.old }
        ensures fails_kept { mem_source_fails self.new ≡ mem_source_fails self.old }
    {
        let most = match self.plan.begin_call() {
            Ok(most) => most,
            Err(failed) => {
                self.fault_at = self.unread.len();
                return Err(failed);
            }
        };
        let count = self.unread.give(buf, most);
        if count == 0 {
            self.empty = self.empty.saturating_add(1);
        }
        Ok(count)
    }
}

/// Bytes in memory, with room for a fixed number, of which a write takes at most `chunk`. The
/// listed calls fail.
#[derive(Drop)]
pub struct MemSink {
    stored: Stored,
    plan: CallPlan,
    fault_at: usize,
}

impl MemSink {
    ghost use Rattle.streams.specs.Memory.{mem_sink_held, mem_sink_room, mem_sink_chunk, mem_sink_fails, mem_sink_calls, mem_sink_faults, mem_sink_fault_at};

    /// A sink with no bytes and room for `n`. `fails` has the numbers of the writes that fail,
    /// counted from 1. It fails where there is no memory for the bytes.
    pub fn with_room(
        alloc: Global,
        n: usize,
        chunk: usize,
        fails: Vec<u64>,
    ) -> Result<Self, OutOfMemory>
        requires { 0 < chunk }
        ensures empty { IfOk result (λ s. mem_sink_held s ≡ []) }
        ensures room { IfOk result (λ s. mem_sink_room s ≡ n) }
        ensures chunk { IfOk result (λ s. mem_sink_chunk s ≡ chunk) }
        ensures fails { IfOk result (λ s. mem_sink_fails s ≡ fails.items) }
        ensures calls { IfOk result (λ s. mem_sink_calls s ≡ 0) }
        ensures faults { IfOk result (λ s. mem_sink_faults s ≡ 0) }
        ensures fault_at { IfOk result (λ s. mem_sink_fault_at s ≡ 0) }
    {
        Ok(MemSink {
            stored: Stored::with_room(alloc, n)?,
            plan: CallPlan::new(chunk, fails),
            fault_at: 0,
        })
    }

    /// The bytes that it holds.
    pub fn bytes(&self) -> &[u8]
        ensures { result.now ≡ mem_sink_held self.now }
    {
        self.stored.bytes()
    }
}

impl Sink for MemSink {
    ghost use Rattle.std.specs.Prelude.{Some};
    ghost use Rattle.streams.specs.Memory.{mem_sink_held, mem_sink_room, mem_sink_chunk, mem_sink_fails, mem_sink_calls, mem_sink_faults, mem_sink_fault_at};

    ghost held = { λ s. Some (mem_sink_held s) };

    ghost room = { λ s. Some (mem_sink_room s) };

    ghost faults = { λ s. mem_sink_faults s };

    ghost fault_at = { λ s. Some (mem_sink_fault_at s) };

    fn write(&mut self, bytes: &[u8]) -> Result<usize, Failed>
        requires { length bytes.now ≤ mem_sink_room self.old }
        ensures bound { IfOk result (λ n. n ≤ length bytes.now) }
        ensures some { IfOk result (λ n. 0 < length bytes.now → 0 < n) }
        ensures bytes { WriteAppends (Some (mem_sink_held self.old))
            (Some (mem_sink_held self.new)) result bytes.now }
        ensures room { Uses (Some (mem_sink_room self.old)) (Some (mem_sink_room self.new)) result }
        ensures cause { HasCause (mem_sink_faults self.old) (mem_sink_faults self.new) result }

        // The number of this call is the count of calls after it.
        ensures calls { mem_sink_calls self.new ≡ one_more (mem_sink_calls self.old) }
        ensures fails { IsErr result ↔ Contains (mem_sink_fails self.old) (mem_sink_calls self.new) }
        ensures faults { CountsErrors (mem_sink_faults self.old)
            (mem_sink_faults self.new) result }
        ensures fault_at { MarksFault (Some (mem_sink_held self.new))
            (Some (mem_sink_fault_at self.old)) (Some (mem_sink_fault_at self.new)) result }
        ensures count { IfOk result (λ n. n ≡ min (mem_sink_chunk self.old) (length bytes.now)) }
        ensures chunk_kept { mem_sink_chunk self.new ≡ mem_sink_chunk self.old }
        ensures fails_kept { mem_sink_fails self.new ≡ mem_sink_fails self.old }
    {
        let chunk = match self.plan.begin_call() {
            Ok(chunk) => chunk,
            Err(failed) => {
                self.fault_at = self.stored.bytes().len();
                return Err(failed);
            }
        };
        let count = chunk.min(bytes.len());
        self.stored.push(&bytes[..count]);
        Ok(count)
    }
}
