//! Sinks in memory.

ghost use Rattle.std.specs.Prelude.{◌≡◌, ◌≢◌, ◌≤◌, ◌+◌, ◌-◌, ◌^◌, [], Some, Err, min, length, IfOk, OnOk, Contains, IsErrOf, ◌↔◌};
ghost use Rattle.std.specs.Io.{WritesAtMost};
ghost use Rattle.std.specs.Io.KnownBytes.{WriteAppends};
ghost use Rattle.cv_io.specs.Causes.{HasSinkCause};
ghost use Rattle.cv_io.specs.Streams.{MakesProgress, MemorySink};

use crate::{Sink, SinkErr};
use std::alloc::Global;
use std::marker::Model;

/// Keeps what it took, a few bytes at a time. The calls of `write` with given numbers fail.
///
/// Contracts see the bytes taken, the most that a call takes, the numbers of the calls that fail, the number of the
/// next call, and the count of faults.
#[derive(Drop)]
pub struct MemSink {
    bytes: Vec<u8>,
    step: usize,
    fails: Vec<u64>,
    call: u64,
    faults: u64,
}

impl Model for MemSink {
    ghost use Rattle.std.specs.Prelude.{◌≤◌};
    ghost use Rattle.cv_io.specs.Streams.{MemorySink};

    ghost Value = { MemorySink };

    ghost view = { λ s. record { taken = s.bytes.items; step = s.step; fails = s.fails.items; call = s.call; faults = s.faults } };

    ghost invariant = { λ s. 1 ≤ s.step };
}

impl MemSink {
    /// Takes at most `step` bytes at a call. The calls whose numbers, from 0, stand in `fails` fail. A call that wants
    /// memory has a number too.
    ///
    /// ```
    /// let fails = vec![in alloc; 1]?;
    /// let mut sink = MemSink::new(alloc, 2, fails);
    /// let answer = put(&mut sink, b"abc"); // `Failed`, and `sink.taken()` is "ab"
    /// ```
    pub fn new(alloc: Global, step: usize, fails: Vec<u64>) -> Self
        requires { 1 ≤ step }
        ensures { result ≡ record { taken = []; step = step; fails = fails.items; call = 0; faults = 0 } }
    {
        MemSink {
            bytes: Vec::new(alloc),
            step,
            fails,
            call: 0,
            faults: 0,
        }
    }

    /// The bytes taken.
    pub fn taken(&self) -> &[u8]
        ensures { result.now ≡ self.now.taken }
    {
        &self.bytes
    }
}

impl Sink for MemSink {
    ghost taken = { λ s. Some s.taken };

    ghost faults = { λ s. s.faults };

    fn write(&mut self, piece: &[u8]) -> Result<usize, SinkErr>
        ensures bound { WritesAtMost result piece.now }
        ensures progress { MakesProgress result piece.now }
        ensures bytes { WriteAppends (Some self.old.taken) (Some self.new.taken) result piece.now }
        ensures cause { HasSinkCause self.old.faults self.new.faults result }
        ensures fails { IsErrOf result SinkErr.Failed ↔ Contains self.old.fails self.old.call }
        ensures count { IfOk result (λ n. n ≡ min (length piece.now) self.old.step) }
        ensures next { self.new.call ≡ min (self.old.call + 1) (2 ^ 64 - 1) }
        ensures rises { IsErrOf result SinkErr.Failed → self.new.faults ≡ min (self.old.faults + 1) (2 ^ 64 - 1) }
        ensures stands { OnOk result (self.new.faults ≡ self.old.faults) }
        ensures no_fault { IsErrOf result SinkErr.Memory → self.new.faults ≡ self.old.faults }
        ensures same { (self.new.step ≡ self.old.step) × (self.new.fails ≡ self.old.fails) }
    {
        let call = self.call;
        self.call = call.saturating_add(1);
        if self.fails.contains(&call) {
            self.faults = self.faults.saturating_add(1);
            return Err(SinkErr::Failed);
        }
        let count = piece.len().min(self.step);
        self.bytes.extend_from_slice(&piece[..count])?;
        Ok(count)
    }
}

/// Keeps what it took, and refuses nothing but for want of memory. Its count of faults is 0.
///
/// Contracts see the bytes taken.
#[derive(Drop)]
pub struct SureSink {
    bytes: Vec<u8>,
}

impl Model for SureSink {
    ghost use Rattle.std.specs.Prelude.{List, ℕ};

    ghost Value = { List ℕ };

    ghost view = { λ s. s.bytes.items };
}

impl SureSink {
    /// Has taken nothing.
    pub fn new(alloc: Global) -> Self
        ensures { result ≡ [] }
    {
        SureSink {
            bytes: Vec::new(alloc),
        }
    }

    /// The bytes taken.
    pub fn taken(&self) -> &[u8]
        ensures { result.now ≡ self.now }
    {
        &self.bytes
    }
}

impl Sink for SureSink {
    ghost taken = { λ s. Some s };

    ghost faults = { λ _. 0 };

    fn write(&mut self, piece: &[u8]) -> Result<usize, SinkErr>
        ensures bound { WritesAtMost result piece.now }
        ensures progress { MakesProgress result piece.now }
        ensures bytes { WriteAppends (Some self.old) (Some self.new) result piece.now }
        ensures cause { HasSinkCause 0 0 result }
        ensures never_fails { result ≢ Err SinkErr.Failed }
        ensures count { IfOk result (λ n. n ≡ length piece.now) }
    {
        self.bytes.extend_from_slice(piece)?;
        Ok(piece.len())
    }
}
