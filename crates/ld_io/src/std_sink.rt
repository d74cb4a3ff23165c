// Standard output.
ghost use Rattle.std.specs.Prelude.{◌≡◌, ◌≢◌, ◌≤◌, ℕ, None};
ghost use Rattle.ld_io.specs.Sink.{faults_after_put};

use crate::sink::{PutError, Sink};
use crate::whole::write_whole;
use std::io;
use std::marker::Model;

/// Standard output.
#[derive(Drop)]
pub struct StdSink<R> {
    rt: R,
    faults: u64,
}

// Contracts see its count of faults alone.
impl<R> Model for StdSink<R> {
    ghost Value = { ℕ };

    ghost view = { λ s. s.faults };
}

impl<R> StdSink<R> {
    /// Standard output, with no faults so far.
    pub fn new(rt: R) -> StdSink<R>
        ensures { result ≡ 0 }
    {
        StdSink { rt, faults: 0 }
    }
}

impl<R: Print + Drop> Sink for StdSink<R> {
    ghost taken = { λ _. None };

    ghost faults = { λ faults. faults };

    fn put(&mut self, piece: &[u8]) -> Result<(), PutError>
        ensures counted { self.new ≡ faults_after_put self.old result }
        ensures never_falls { self.old ≤ self.new }
        ensures no_memory { result ≢ Err PutError.Memory }
    {
        let written = write_whole(&mut io::writer(&self.rt), piece);
        if written.is_err() {
            self.faults = self.faults.saturating_add(1);
        }
        written
    }
}
