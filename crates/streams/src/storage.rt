// What the sources and sinks over memory are made of.
ghost use Rattle.std.specs.Prelude.{◌≡◌, ◌+◌, ◌<◌, ◌≤◌, ◌↔◌, List, ℕ, [], ◌++◌, length, min, take, drop, vec_capacity, IsErr, IfOk, Contains};
ghost use Rattle.streams.specs.Causes.{one_more, HasCause, CountsErrors};

use crate::error::{Failed, OutOfMemory};
use std::alloc::Global;
use std::marker::Model;

/// Bytes that are given from the front.
#[derive(Drop)]
pub struct Unread {
    bytes: Vec<u8>,
    at: usize,
}

impl Model for Unread {
    ghost Value = { List ℕ };

    ghost view = { λ u. drop u.at u.bytes.items };

    ghost invariant = { λ u. u.at ≤ length u.bytes.items };
}

impl Unread {
    pub fn new(bytes: Vec<u8>) -> Self
        ensures { result ≡ bytes.items }
    {
        Unread { bytes, at: 0 }
    }

    /// How many bytes are left.
    pub fn len(&self) -> usize
        ensures { result ≡ length self.now }
    {
        self.bytes.len() - self.at
    }

    /// Gives at most `most` bytes to the front of the buffer, and returns how many it gave.
    pub fn give(&mut self, buf: &mut [u8], most: usize) -> usize
        ensures count { result ≡ min most (min (length buf.old) (length self.old)) }
        ensures given { buf.new ≡ take result self.old ++ drop result buf.old }
        ensures rest { self.new ≡ drop result self.old }
    {
        let rest = &self.bytes[self.at..];
        let count = most.min(buf.len().min(rest.len()));
        buf[..count].copy_from_slice(&rest[..count]);
        self.at += count;
        count
    }
}

/// Bytes that are kept, with memory for a fixed number more.
#[derive(Drop)]
pub struct Stored {
    bytes: Vec<u8>,
    room: usize,
    ghost reserved: { length bytes.items + room ≤ vec_capacity bytes },
}

impl Stored {
    pub fn with_room(alloc: Global, n: usize) -> Result<Self, OutOfMemory>
        ensures empty { IfOk result (λ s. s.bytes.items ≡ []) }
        ensures room { IfOk result (λ s. s.room ≡ n) }
    {
        Ok(Stored {
            bytes: Vec::with_capacity(alloc, n)?,
            room: n,
        })
    }

    pub fn push(&mut self, piece: &[u8])
        requires { length piece.now ≤ self.old.room }
        ensures bytes { self.new.bytes.items ≡ self.old.bytes.items ++ piece.now }
        ensures room { self.new.room + length piece.now ≡ self.old.room }
    {
        match self.bytes.extend_from_slice(piece) {
            Ok(()) => self.room -= piece.len(),
            Err(_) => unreachable!(),
        }
    }

    pub fn bytes(&self) -> &[u8]
        ensures { result.now ≡ self.now.bytes.items }
    {
        &self.bytes
    }
}

/// How many bytes a call moves at most, and which calls fail, by their numbers from 1.
#[derive(Drop)]
pub struct CallPlan {
    chunk: usize,
    fails: Vec<u64>,
    calls: u64,
    faults: u64,
    ghost positive: { 0 < chunk },
}

impl CallPlan {
    pub fn new(chunk: usize, fails: Vec<u64>) -> Self
        requires { 0 < chunk }
        ensures chunk { result.chunk ≡ chunk }
        ensures fails { result.fails.items ≡ fails.items }
        ensures none_made { (result.calls ≡ 0) × (result.faults ≡ 0) }
    {
        CallPlan {
            chunk,
            fails,
            calls: 0,
            faults: 0,
        }
    }

    /// Counts a call, which fails where its number is listed. Returns the most bytes that it moves.
    pub fn begin_call(&mut self) -> Result<usize, Failed>
        ensures calls { self.new.calls ≡ one_more self.old.calls }
        ensures fails { IsErr result ↔ Contains self.old.fails.items self.new.calls }
        ensures faults { CountsErrors self.old.faults self.new.faults result }
        ensures cause { HasCause self.old.faults self.new.faults result }
        ensures chunk { IfOk result (λ n. n ≡ self.old.chunk) }
        ensures positive { IfOk result (λ n. 0 < n) }
        ensures chunk_kept { self.new.chunk ≡ self.old.chunk }
        ensures fails_kept { self.new.fails.items ≡ self.old.fails.items }
    {
        self.calls = self.calls.saturating_add(1);
        if self.fails.contains(&self.calls) {
            self.faults = self.faults.saturating_add(1);
            return Err(Failed);
        }
        Ok(self.chunk)
    }
}
