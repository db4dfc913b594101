//! A source and a sink in memory, which fail where they are told to.
ghost use Rattle.std.specs.Prelude.{◌≡◌, ◌<◌, ◌≤◌, [], length, take, IfOk};

use crate::{Failed, Sink, Source};
use com_base::{ByteList, Memory};
use std::alloc::Global;
use std::marker::Model;

/// A source over bytes in memory, for tests and for hosts that have their input already.
#[derive(Debug, Drop)]
pub struct MemorySource {
    bytes: ByteList,
    at: usize,
    piece: usize,
    failing: Vec<u64>,
    calls: u64,
    faults: u64,
}

impl Model for MemorySource {
    ghost use Rattle.std.specs.Prelude.{◌≤◌, ◌<◌, drop, length};
    ghost use Rattle.com_io.specs.InMemory.{Input};

    ghost Value = { Input };

    ghost view = { λ s. record {
      left = drop s.at s.bytes;
      piece = s.piece;
      failing = s.failing.items;
      calls = s.calls;
      faults = s.faults;
    } };

    ghost invariant = { λ s. (s.at ≤ length s.bytes) × (0 < s.piece) };
}

impl MemorySource {
    /// A source that gives these bytes, at most `piece` of them by one read. The reads whose numbers,
    /// counted from 1, are in `failing` fail and raise the count of faults.
    pub fn new(bytes: ByteList, piece: usize, failing: Vec<u64>) -> MemorySource
        requires { 0 < piece }
        ensures { result ≡ record {
          left = bytes;
          piece = piece;
          failing = failing.items;
          calls = 0;
          faults = 0;
        } }
    {
        MemorySource {
            bytes,
            at: 0,
            piece,
            failing,
            calls: 0,
            faults: 0,
        }
    }
}

impl Source for MemorySource {
    ghost use Rattle.std.specs.Prelude.{Some, OnErr, is_err};
    ghost use Rattle.com_io.specs.Faults.{Rose};
    ghost use Rattle.com_io.specs.Told.{Loses, IsAtEnd};
    ghost use Rattle.com_io.specs.InMemory.{next_fails, read_count, after_read, after_failed_read};

    ghost left = { λ s. Some s.left };

    ghost faults_of = { λ s. s.faults };

    /// Gives as many bytes as `into` has room for, as one read gives at most, and as are left.
    fn read(&mut self, into: &mut [u8]) -> Result<usize, Failed>
        // What this source does.
        ensures fails { is_err result ≡ next_fails self.old.failing self.old.calls }
        ensures count { IfOk result (λ n. n ≡ read_count self.old (length into.new)) }
        ensures ok { IfOk result (λ n. self.new ≡ after_read self.old n) }
        ensures err { OnErr result (self.new ≡ after_failed_read self.old) }

        // What each source does.
        ensures within { IfOk result (λ n. n ≤ length into.new) }
        ensures taken { IfOk result (λ n. Loses (Some self.old.left) (Some self.new.left) (take n into.new)) }
        ensures end { IfOk result (λ n. n ≡ 0 → 0 < length into.new → IsAtEnd (Some self.new.left)) }
        ensures failed { OnErr result (Rose self.old.faults self.new.faults) }
        ensures kept { OnErr result (Some self.new.left ≡ Some self.old.left) }
        ensures counts { self.old.faults ≤ self.new.faults }
    {
        self.calls = self.calls.saturating_add(1);
        if self.failing.contains(&self.calls) {
            self.faults = self.faults.saturating_add(1);
            return Err(Failed);
        }
        let rest = self.bytes.as_slice().split_at(self.at).1;
        let count = self.piece.min(into.len()).min(rest.len());
        copy_front(rest, into, count);
        self.at += count;
        Ok(count)
    }

    fn faults(&self) -> u64 {
        self.faults
    }
}

// Copies so many bytes from the front of `from` to the front of `into`.
fn copy_front(from: &[u8], into: &mut [u8], count: usize)
    requires from { count ≤ length from.now }
    requires into { count ≤ length into.old }
    ensures { take count into.new ≡ take count from.now }
{
    into[..count].copy_from_slice(&from[..count]);
}

/// A sink that holds what is written to it in memory.
#[derive(Debug, Drop)]
pub struct MemorySink {
    bytes: Vec<u8>,
    room: usize,
    piece: usize,
    failing: Vec<u64>,
    calls: u64,
    faults: u64,
}

impl Model for MemorySink {
    ghost use Rattle.std.specs.Prelude.{◌≤◌, ◌<◌, ◌+◌, vec_len, vec_capacity};
    ghost use Rattle.com_io.specs.InMemory.{Output};

    ghost Value = { Output };

    ghost view = { λ s. record {
      held = s.bytes.items;
      room = s.room;
      piece = s.piece;
      failing = s.failing.items;
      calls = s.calls;
      faults = s.faults;
    } };

    ghost invariant = { λ s. (vec_len s.bytes + s.room ≤ vec_capacity s.bytes) × (0 < s.piece) };
}

impl MemorySink {
    /// An empty sink with room for so many bytes, which takes at most `piece` of them by one write.
    /// The writes whose numbers, counted from 1, are in `failing` fail and raise the count of faults,
    /// and so does each write once no room is left.
    pub fn new(
        alloc: Global,
        room: usize,
        piece: usize,
        failing: Vec<u64>,
    ) -> Result<MemorySink, Memory>
        requires { 0 < piece }
        ensures { IfOk result (λ sink. sink ≡ record {
          held = [];
          room = room;
          piece = piece;
          failing = failing.items;
          calls = 0;
          faults = 0;
        }) }
    {
        Ok(MemorySink {
            bytes: Vec::with_capacity(alloc, room)?,
            room,
            piece,
            failing,
            calls: 0,
            faults: 0,
        })
    }

    /// The bytes that were written.
    pub fn held(&self) -> &[u8]
        ensures { result.now ≡ self.now.held }
    {
        self.bytes.as_slice()
    }
}

impl Sink for MemorySink {
    ghost use Rattle.std.specs.Prelude.{Some, OnErr, is_err};
    ghost use Rattle.com_io.specs.Faults.{Rose};
    ghost use Rattle.com_io.specs.Told.{Gains};
    ghost use Rattle.com_io.specs.InMemory.{write_fails, write_count, after_write, after_failed_write};

    ghost held = { λ s. Some s.held };

    ghost faults_of = { λ s. s.faults };

    /// Takes as many bytes of `from` as there are, as one write takes at most, and as there is room
    /// for.
    fn write(&mut self, from: &[u8]) -> Result<usize, Failed>
        // What this sink does.
        ensures fails { is_err result ≡ write_fails self.old }
        ensures count { IfOk result (λ n. n ≡ write_count self.old (length from.now)) }
        ensures ok { IfOk result (λ n. self.new ≡ after_write self.old (take n from.now)) }
        ensures err { OnErr result (self.new ≡ after_failed_write self.old) }

        // What each sink does.
        ensures within { IfOk result (λ n. n ≤ length from.now) }
        ensures some { IfOk result (λ n. 0 < length from.now → 0 < n) }
        ensures taken { IfOk result (λ n. Gains (Some self.old.held) (Some self.new.held) (take n from.now)) }
        ensures failed { OnErr result (Rose self.old.faults self.new.faults) }
        ensures kept { OnErr result (Some self.new.held ≡ Some self.old.held) }
        ensures counts { self.old.faults ≤ self.new.faults }
    {
        self.calls = self.calls.saturating_add(1);
        if self.room == 0 || self.failing.contains(&self.calls) {
            self.faults = self.faults.saturating_add(1);
            return Err(Failed);
        }
        let count = self.piece.min(self.room).min(from.len());
        match self.bytes.extend_from_slice(&from[..count]) {
            Ok(()) => {
                self.room -= count;
                Ok(count)
            }
            Err(_) => unreachable!(),
        }
    }

    fn faults(&self) -> u64 {
        self.faults
    }
}
