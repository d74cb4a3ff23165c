// A sink in memory that fails the puts that it was told to fail.
ghost use Rattle.std.specs.Prelude.{◌≡◌, ◌<◌, ◌≤◌, [], ◌∷◌, length, Some, None, OnOk, OnErr, IsSomeAnd, take};
ghost use Rattle.ld_io.specs.MemSink.{listed_len, taken_len, taken_of, with_put, with_fault};

use crate::sink::{PutError, Sink};
use std::alloc::{AllocError, Global};
use std::marker::Model;

/// A sink in memory of which any put can be made to fail.
#[derive(Debug, Drop)]
pub struct MemSink {
    bytes: Vec<u8>,
    // The newest first.
    failing: Vec<(u64, u64)>,
    puts: u64,
    faults: u64,
}

impl Model for MemSink {
    ghost use Rattle.ld_io.specs.MemSink.{MemSinkValue};

    ghost Value = { MemSinkValue };

    ghost view = { λ s. record {
      bytes = s.bytes.items;
      failing = s.failing.items;
      puts = s.puts;
      faults = s.faults;
    } };
}

impl MemSink {
    /// A sink that has taken nothing, of which no put is to fail.
    pub fn new(alloc: Global) -> MemSink
        ensures bytes { result.bytes ≡ [] }
        ensures failing { result.failing ≡ [] }
        ensures puts { result.puts ≡ 0 }
        ensures faults { result.faults ≡ 0 }
    {
        MemSink {
            bytes: Vec::new(alloc),
            failing: Vec::new(alloc),
            puts: 0,
            faults: 0,
        }
    }

    /// Makes the put of this number take that many bytes, but not the whole piece, and fail. The
    /// later of two for one number counts.
    ///
    /// Puts are counted from 1, and all behind the 2^64 - 1st have its number.
    pub fn fail(&mut self, call: u64, taken: u64) -> Result<(), AllocError>
        ensures ok { OnOk result (self.new ≡
            record self.old { failing = (call, taken) ∷ self.old.failing }) }
        ensures err { OnErr result (self.new ≡ self.old) }
    {
        self.failing.insert(0, (call, taken))?;
        Ok(())
    }

    /// How many puts there were. The count stands still at 2^64 - 1.
    pub fn puts(&self) -> u64
        ensures { result ≡ self.now.puts }
    {
        self.puts
    }

    /// The bytes taken.
    pub fn bytes(&self) -> &[u8]
        ensures { result.now ≡ self.now.bytes }
    {
        self.bytes.as_slice()
    }
}

// How many bytes the put of this number is to take before it fails.
fn listed_len(failing: &[(u64, u64)], call: u64) -> Option<u64>
    ensures { result ≡ listed_len failing.now call }
{
    failing
        .iter()
        .find(|newest| newest.0 == call)
        .map(|newest| newest.1)
}

impl Sink for MemSink {
    ghost taken = { λ s. Some s.bytes };

    ghost faults = { λ s. s.faults };

    fn put(&mut self, piece: &[u8]) -> Result<(), PutError>
        ensures ok { OnOk result (self.new ≡ with_put self.old piece.now) }
        ensures not_listed { OnOk result (taken_len self.old piece.now ≡ None) }
        ensures failed { result ≡ Err PutError.Failed → IsSomeAnd (taken_len self.old piece.now)
            (λ n. self.new ≡ with_fault self.old (take n piece.now)) }
        ensures memory { result ≡ Err PutError.Memory → self.new ≡ with_put self.old [] }
        ensures room { result ≡ Err PutError.Memory → 0 < length (taken_of self.old piece.now) }
        ensures never_falls { self.old.faults ≤ self.new.faults }
    {
        self.puts = self.puts.saturating_add(1);
        if let ([_, others @ ..], Some(taken)) = (piece, listed_len(&self.failing, self.puts)) {
            let taken = taken.min(others.len() as u64) as usize;
            self.bytes.extend_from_slice(&piece[..taken])?;
            self.faults = self.faults.saturating_add(1);
            return Err(PutError::Failed);
        }
        self.bytes.extend_from_slice(piece)?;
        Ok(())
    }
}
