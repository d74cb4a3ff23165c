ghost use Rattle.std.specs.Prelude.{◌≡◌, OnErr, OnOk, take};

use std::alloc::AllocError;

// The outcome of an appending. Where memory was lacking, the text has its first length again.
pub(crate) fn or_undone(
    outcome: Result<(), AllocError>,
    length: usize,
    into: &mut Vec<u8>,
) -> Result<(), AllocError>
    ensures outcome { result ≡ outcome }
    ensures ok { OnOk outcome (into.new.items ≡ into.old.items) }
    ensures err { OnErr outcome (into.new.items ≡ take length into.old.items) }
{
    if outcome.is_err() {
        into.truncate(length);
    }
    outcome
}
