ghost use Rattle.std.specs.Prelude.{◌≡◌, ◌<◌, ◌≤◌, ℕ, [], length, take, is_err, IfOk, OnErr};
ghost use Rattle.cra_io.specs.Faults.{HasCause};
ghost use Rattle.cra_io.specs.Memory.{Writing, is_refused, taken_count, after_write, after_failed_write};

use crate::traits::{Failed, Sink};
use std::alloc::{AllocError, Global};
use std::marker::Model;

/// Why a sink over memory was not made.
#[derive(Clone, Copy, Debug, PartialEq, Eq)]
pub enum SinkError {
    Memory,
}

impl From<AllocError> for SinkError {
    ghost use Rattle.std.specs.Prelude.{◌≡◌};
    ghost use Rattle.cra_io.specs.declared.memory_sink.SinkError.TheVariants.{Memory};

    ghost from_gives = { λ _ e. e ≡ Memory };

    fn from(_: AllocError) -> SinkError {
        SinkError::Memory
    }
}

/// A sink that keeps its bytes in memory, in room that is taken when it is made, and whose writes
/// are as short as is wanted and fail where it is wanted.
#[derive(Debug, Drop)]
pub struct MemorySink {
    bytes: Vec<u8>,
    room: usize,
    most: usize,
    fails: Vec<u64>,
    calls: u64,
    faults: u64,
}

impl Model for MemorySink {
    ghost use Rattle.std.specs.Prelude.{◌+◌, ◌≤◌, vec_len, vec_capacity};
    ghost use Rattle.cra_io.specs.Memory.{Writing};

    ghost Value = { Writing };

    ghost view = { λ s.
        record {
          taken = s.bytes.items;
          room = s.room;
          most = s.most;
          fails = s.fails.items;
          calls = s.calls;
          faults = s.faults;
        } };

    ghost invariant = { λ s. (vec_len s.bytes + s.room ≤ vec_capacity s.bytes) × (1 ≤ s.most) };
}

impl MemorySink {
    /// A sink with room for this many bytes, which takes at most `most` of them in one write.
    /// Exactly the writes whose numbers, from 0, are in `fails`, and those of a byte where no room
    /// is left, fail.
    pub fn new(
        alloc: Global,
        room: usize,
        most: usize,
        fails: Vec<u64>,
    ) -> Result<MemorySink, SinkError>
        requires { 1 ≤ most }
        ensures { IfOk result
            (λ s. s ≡ record {
              taken = [];
              room = room;
              most = most;
              fails = fails.items;
              calls = 0;
              faults = 0;
            }) }
    {
        let bytes = Vec::with_capacity(alloc, room)?;
        Ok(MemorySink {
            bytes,
            room,
            most,
            fails,
            calls: 0,
            faults: 0,
        })
    }

    /// The bytes that were taken.
    pub fn bytes(&self) -> &[u8]
        ensures { result.now ≡ self.now.taken }
    {
        self.bytes.as_slice()
    }
}

impl Sink for MemorySink {
    ghost use Rattle.std.specs.Prelude.{Some};

    ghost taken = { λ s. Some s.taken };

    ghost faults = { λ s. s.faults };

    fn write(&mut self, piece: &[u8]) -> Result<usize, Failed>
        ensures fails { is_err result ≡ is_refused self.old (length piece.now) }
        ensures count { IfOk result (λ n. n ≡ taken_count self.old (length piece.now)) }
        ensures after_ok { IfOk result (λ n. self.new ≡ after_write self.old piece.now n) }
        ensures after_err { OnErr result (self.new ≡ after_failed_write self.old) }
        ensures moves { IfOk result (λ n. 0 < length piece.now → 0 < n) }
        ensures cause { HasCause self.old.faults self.new.faults result }
    {
        let call = self.calls;
        self.calls = call.saturating_add(1);
        if self.fails.contains(&call) || (!piece.is_empty() && self.room == 0) {
            self.faults = self.faults.saturating_add(1);
            return Err(Failed);
        }
        let count = piece.len().min(self.most).min(self.room);
        self.bytes.extend_from_slice(&piece[..count]).unwrap();
        self.room -= count;
        Ok(count)
    }
}
