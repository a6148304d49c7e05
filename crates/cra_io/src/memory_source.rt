ghost use Rattle.std.specs.Prelude.{◌≡◌, ◌<◌, ◌≤◌, ℕ, [], ◌++◌, length, take, drop, is_err, IfOk, OnOk, OnErr};
ghost use Rattle.cra_io.specs.Faults.{HasCause};
ghost use Rattle.cra_io.specs.Memory.{Reading, is_failing, given_count, after_read, after_failed_read};

use crate::traits::{Failed, Source};
use std::marker::Model;

/// A source over bytes in memory, whose reads are as short as is wanted and fail where it is
/// wanted.
#[derive(Debug, Drop)]
pub struct MemorySource {
    bytes: Vec<u8>,
    at: usize,
    most: usize,
    fails: Vec<u64>,
    calls: u64,
    faults: u64,
}

impl Model for MemorySource {
    ghost use Rattle.std.specs.Prelude.{◌≤◌, drop, length};
    ghost use Rattle.cra_io.specs.Memory.{Reading};

    ghost Value = { Reading };

    ghost view = { λ s.
        record {
          left = drop s.at s.bytes.items;
          most = s.most;
          fails = s.fails.items;
          calls = s.calls;
          faults = s.faults;
        } };

    ghost invariant = { λ s. (s.at ≤ length s.bytes.items) × (1 ≤ s.most) };
}

impl MemorySource {
    /// A source of these bytes that gives at most `most` of them in one read. Exactly the reads
    /// whose numbers, from 0, are in `fails` fail.
    pub fn new(bytes: Vec<u8>, most: usize, fails: Vec<u64>) -> MemorySource
        requires { 1 ≤ most }
        ensures { result
            ≡ record {
              left = bytes.items;
              most = most;
              fails = fails.items;
              calls = 0;
              faults = 0;
            } }
    {
        MemorySource {
            bytes,
            at: 0,
            most,
            fails,
            calls: 0,
            faults: 0,
        }
    }
}

impl Source for MemorySource {
    ghost use Rattle.std.specs.Prelude.{Some};

    ghost left = { λ s. Some s.left };

    ghost faults = { λ s. s.faults };

    fn read(&mut self, into: &mut [u8]) -> Result<usize, Failed>
        ensures fails { is_err result ≡ is_failing self.old.fails self.old.calls }
        ensures count { IfOk result (λ n. n ≡ given_count self.old (length into.old)) }
        ensures filled { IfOk result (λ n. into.new ≡ take n self.old.left ++ drop n into.old) }
        ensures after_ok { IfOk result (λ n. self.new ≡ after_read self.old n) }
        ensures after_err { OnErr result (self.new ≡ after_failed_read self.old) }
        ensures untouched { OnErr result (into.new ≡ into.old) }
        ensures end { IfOk result (λ n. n ≡ 0 → 0 < length into.new → self.new.left ≡ []) }
        ensures cause { HasCause self.old.faults self.new.faults result }
    {
        let call = self.calls;
        self.calls = call.saturating_add(1);
        if self.fails.contains(&call) {
            self.faults = self.faults.saturating_add(1);
            return Err(Failed);
        }
        let left = &self.bytes[self.at..];
        let count = into.len().min(self.most).min(left.len());
        into[..count].copy_from_slice(&left[..count]);
        self.at += count;
        Ok(count)
    }
}
