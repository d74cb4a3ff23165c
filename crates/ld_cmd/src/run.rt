ghost use Rattle.std.specs.Prelude.{◌≡◌, ◌≤◌, ◌∷◌, [], IfSome, None, is_some, map, string_bytes};
ghost use Rattle.std.specs.List.{concat};
ghost use Rattle.ld_io.specs.Faults.{HasRisen};
ghost use Rattle.ld_io.specs.Shelf.{IsOnlyRead};
ghost use Rattle.ld_cmd.specs.Ending.{EndsAs, IsComplete, PutsOnce, StandsInFront, Takes, TakesNothing, UsageIsExact};
ghost use Rattle.ld_cmd.specs.Output.{output};
ghost use Rattle.ld_words.specs.Words.{intent_of, usage_line};

use crate::made::Stop;
use crate::make::make_work;
use crate::put::put_last;
use crate::replay::play;
use crate::session::Work;
use crate::status::Status;
use ld_io::{Shelf, Sink};
use ld_words::{USAGE, is_command};
use std::alloc::Global;

/// Runs the command that the words name (the words after the program's name): reads its files from
/// the shelf, and writes what it gives into the sink, piece by piece. An empty piece is not put. Where
/// no file is missing or bad and no limit is reached, it ends with `Done`, or with `Faulted` exactly
/// where something is at fault (`ending_law`), unless a fault or want of memory stops it.
pub fn run<S: Shelf, K: Sink>(alloc: Global, words: &[String], shelf: &mut S, out: &mut K) -> Status
    // Over told files, the status is that of the output, and where the sink tells too, what it
    // took is of the output's pieces.
    ensures status { IfSome (S.files shelf.old)
        (λ files. EndsAs result (output (map string_bytes words.now) files).status) }
    ensures taken { IfSome (S.files shelf.old) (λ files. IfSome (K.taken out.old)
        (λ before. Takes result (output (map string_bytes words.now) files).pieces before (K.taken out.new))) }
    // Where no read and no write failed, all of it, or memory was lacking.
    ensures complete { ¬ (HasRisen (S.faults shelf.old) (S.faults shelf.new)) → ¬ (HasRisen (K.faults out.old) (K.faults out.new))
        → IfSome (S.files shelf.old) (λ files. IfSome (K.taken out.old)
        (λ before. IsComplete result (output (map string_bytes words.now) files) before (K.taken out.new))) }
    // Over every shelf, words outside the grammar and no others give the usage line, and nothing is read for it.
    ensures usage { UsageIsExact (intent_of (map string_bytes words.now)) result }
    ensures usage_taken { intent_of (map string_bytes words.now) ≡ None → IfSome (K.taken out.old)
        (λ before. Takes result (usage_line ∷ []) before (K.taken out.new)) }
    ensures usage_unread { intent_of (map string_bytes words.now) ≡ None → shelf.new ≡ shelf.old }
    ensures shelf { IsOnlyRead (S.files shelf.old) (S.files shelf.new) (S.faults shelf.old) (S.faults shelf.new) (result ≡ Status.ReadFault) }
    ensures write_cause { result ≡ Status.WriteFault → HasRisen (K.faults out.old) (K.faults out.new) }
    // Nothing but a script's replies is taken where reading or memory stopped the run.
    ensures nothing { PutsOnce (intent_of (map string_bytes words.now)) → IfSome (K.taken out.old)
        (λ before. TakesNothing result before (K.taken out.new)) }
    // An empty piece is not put: where the whole output has no byte, as that of a script without a
    // command, the sink stays as it was.
    ensures unput { IfSome (S.files shelf.old)
        (λ files. concat (output (map string_bytes words.now) files).pieces ≡ [] → out.new ≡ out.old) }
    ensures in_front { IfSome (K.taken out.old) (λ before. StandsInFront before (K.taken out.new)) }
    ensures told_same { is_some (K.taken out.new) ≡ is_some (K.taken out.old) }
    ensures sink_faults { K.faults out.old ≤ K.faults out.new }
{
    if !is_command(words) {
        return put_last(out, USAGE, Status::Usage);
    }
    match make_work(alloc, words, shelf) {
        Ok(Work::Write(made)) | Err(Stop::Decided(made)) => {
            put_last(out, made.text.as_slice(), made.status)
        }
        Ok(Work::Play(session)) => play(alloc, session, shelf, out),
        Err(Stop::ReadFault) => Status::ReadFault,
        Err(Stop::Memory) => Status::Memory,
    }
}
