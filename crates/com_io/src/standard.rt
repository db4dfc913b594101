//! Standard input, standard output, and a sink that keeps nothing.
ghost use Rattle.std.specs.Prelude.{◌≡◌, ◌≤◌, ◌<◌, IfOk, length};

use crate::{Failed, Sink, Source};
use std::io::{ErrorKind, Read, Stdin, Stdout, Write};
use std::marker::Model;

/// A sink that takes every piece whole and keeps nothing. No write to it fails.
#[derive(Debug, Clone, Copy, PartialEq, Eq)]
pub struct Discard;

impl Sink for Discard {
    ghost use Rattle.std.specs.Prelude.{◌≡◌, None, Ok, length};

    ghost held = { λ _. None };

    ghost faults_of = { λ _. 0 };

    /// Takes the whole piece.
    fn write(&mut self, from: &[u8]) -> Result<usize, Failed>
        ensures { result ≡ Ok (length from.now) }
    {
        Ok(from.len())
    }

    fn faults(&self) -> u64 {
        0
    }
}

/// Standard input. It tells no bytes, and its count of faults starts at 0.
#[derive(Debug, Drop)]
pub struct StdSource {
    stdin: Stdin,
    faults: u64,
}

impl Model for StdSource {
    ghost use Rattle.std.specs.Prelude.{ℕ};

    ghost Value = { ℕ };

    ghost view = { λ s. s.faults };
}

impl StdSource {
    /// The source over this handle of standard input.
    pub fn new(stdin: Stdin) -> StdSource
        ensures { result ≡ 0 }
    {
        StdSource { stdin, faults: 0 }
    }
}

impl Source for StdSource {
    ghost use Rattle.std.specs.Prelude.{◌≡◌, ◌≤◌, None, IfOk, OnOk, OnErr, length};
    ghost use Rattle.com_io.specs.Faults.{Rose, one_more};

    ghost left = { λ _. None };

    ghost faults_of = { λ faults. faults };

    /// Reads from standard input, as `std::io::Read::read` does, and once more where a signal broke the
    /// read off.
    fn read(&mut self, into: &mut [u8]) -> Result<usize, Failed>
        // What this source does.
        ensures ok { OnOk result (self.new ≡ self.old) }
        ensures err { OnErr result (self.new ≡ one_more self.old) }

        // What each source does.
        ensures within { IfOk result (λ n. n ≤ length into.new) }
        ensures failed { OnErr result (Rose self.old self.new) }
        ensures counts { self.old ≤ self.new }
    {
        match read_once(&mut self.stdin, into) {
            Ok(count) => Ok(count),
            Err(Failed) => {
                self.faults = self.faults.saturating_add(1);
                Err(Failed)
            }
        }
    }

    fn faults(&self) -> u64 {
        self.faults
    }
}

/// Standard output. It tells no content, and its count of faults starts at 0.
#[derive(Debug, Drop)]
pub struct StdSink {
    stdout: Stdout,
    faults: u64,
}

impl Model for StdSink {
    ghost use Rattle.std.specs.Prelude.{ℕ};

    ghost Value = { ℕ };

    ghost view = { λ s. s.faults };
}

impl StdSink {
    /// The sink over this handle of standard output.
    pub fn new(stdout: Stdout) -> StdSink
        ensures { result ≡ 0 }
    {
        StdSink { stdout, faults: 0 }
    }
}

impl Sink for StdSink {
    ghost use Rattle.std.specs.Prelude.{◌≡◌, ◌≤◌, ◌<◌, None, IfOk, OnOk, OnErr, length};
    ghost use Rattle.com_io.specs.Faults.{Rose, one_more};

    ghost held = { λ _. None };

    ghost faults_of = { λ faults. faults };

    /// Writes to standard output, as `std::io::Write::write` does, once more where a signal broke the
    /// write off, and then flushes. A flush that fails, and a write that takes nothing of a piece that
    /// is not empty, are failed writes.
    fn write(&mut self, from: &[u8]) -> Result<usize, Failed>
        // What this sink does.
        ensures ok { OnOk result (self.new ≡ self.old) }
        ensures err { OnErr result (self.new ≡ one_more self.old) }

        // What each sink does.
        ensures within { IfOk result (λ n. n ≤ length from.now) }
        ensures some { IfOk result (λ n. 0 < length from.now → 0 < n) }
        ensures failed { OnErr result (Rose self.old self.new) }
        ensures counts { self.old ≤ self.new }
    {
        match write_once(&mut self.stdout, from) {
            Ok(count) => Ok(count),
            Err(Failed) => {
                self.faults = self.faults.saturating_add(1);
                Err(Failed)
            }
        }
    }

    fn faults(&self) -> u64 {
        self.faults
    }
}

// One read of standard input, made again where a signal broke it off.
fn read_once(stdin: &mut Stdin, into: &mut [u8]) -> Result<usize, Failed>
    ensures { IfOk result (λ n. n ≤ length into.new) }
{
    for _ in 0..u64::MAX {
        match stdin.read(into) {
            Ok(count) => return Ok(count),
            Err(error) if error.kind() == ErrorKind::Interrupted => {}
            Err(_) => break,
        }
    }
    Err(Failed)
}

// One write to standard output and its flush. The write is made again where a signal broke it off.
fn write_once(stdout: &mut Stdout, from: &[u8]) -> Result<usize, Failed>
    ensures within { IfOk result (λ n. n ≤ length from.now) }
    ensures some { IfOk result (λ n. 0 < length from.now → 0 < n) }
{
    for _ in 0..u64::MAX {
        match stdout.write(from) {
            Ok(0) if !from.is_empty() => break,
            Ok(count) => {
                return match stdout.flush() {
                    Ok(()) => Ok(count),
                    Err(_) => Err(Failed),
                };
            }
            Err(error) if error.kind() == ErrorKind::Interrupted => {}
            Err(_) => break,
        }
    }
    Err(Failed)
}
