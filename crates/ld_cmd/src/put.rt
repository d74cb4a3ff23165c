// Pieces are put into a sink.
ghost use Rattle.std.specs.Prelude.{◌≡◌, ◌≢◌, ◌≤◌, ◌∷◌, [], Err, IfErr, IfSome, OnOk, is_some};
ghost use Rattle.ld_io.specs.Faults.{HasRisen};
ghost use Rattle.ld_cmd.specs.Ending.{EndsAs, IsStoppedPut, IsWhole, StandsInFront, Takes, TakesAll, TakesNothing};

use crate::status::Status;
use ld_io::{PutError, Sink};

// Puts the last piece, and ends with this status.
pub(crate) fn put_last<K: Sink>(out: &mut K, piece: &[u8], status: Status) -> Status
    requires { IsWhole status }
    ensures status { EndsAs result status }
    ensures taken { IfSome (K.taken out.old) (λ before. Takes result (piece.now ∷ []) before (K.taken out.new)) }
    ensures cause { result ≡ Status.WriteFault → HasRisen (K.faults out.old) (K.faults out.new) }
    ensures never_read { result ≢ Status.ReadFault }
    ensures nothing { IfSome (K.taken out.old) (λ before. TakesNothing result before (K.taken out.new)) }
    ensures unput { piece.now ≡ [] → out.new ≡ out.old }
    ensures in_front { IfSome (K.taken out.old) (λ before. StandsInFront before (K.taken out.new)) }
    ensures told_same { is_some (K.taken out.new) ≡ is_some (K.taken out.old) }
    ensures never_falls { K.faults out.old ≤ K.faults out.new }
{
    match put(out, piece) {
        Ok(()) => status,
        Err(stopped) => stopped,
    }
}

// Puts a piece, unless it is empty.
pub(crate) fn put<K: Sink>(out: &mut K, piece: &[u8]) -> Result<(), Status>
    ensures whole { OnOk result (IfSome (K.taken out.old) (λ before. TakesAll (piece.now ∷ []) before (K.taken out.new))) }
    ensures part { IfErr result (λ status. IsStoppedPut status × IfSome (K.taken out.old) (λ before. Takes status (piece.now ∷ []) before (K.taken out.new))) }
    ensures cause { result ≡ Err Status.WriteFault → HasRisen (K.faults out.old) (K.faults out.new) }
    ensures unput { piece.now ≡ [] → out.new ≡ out.old }
    ensures in_front { IfSome (K.taken out.old) (λ before. StandsInFront before (K.taken out.new)) }
    ensures told_same { is_some (K.taken out.new) ≡ is_some (K.taken out.old) }
    ensures never_falls { K.faults out.old ≤ K.faults out.new }
{
    if piece.is_empty() {
        return Ok(());
    }
    match out.put(piece) {
        Ok(()) => Ok(()),
        Err(PutError::Failed) => Err(Status::WriteFault),
        Err(PutError::Memory) => Err(Status::Memory),
    }
}
