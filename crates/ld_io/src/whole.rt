// Reading a whole reader, and writing a whole piece.
ghost use Rattle.std.specs.Prelude.{◌≡◌, ◌<◌, ◌≤◌, ◌^◌, [], OnOk, MatchResult, IfSome, length, take, vec_len};
ghost use Rattle.std.specs.Io.KnownBytes.{Appends, Keeps};
ghost use Rattle.ld_io.specs.Whole.{ReadFits, ReadTold, WriteTold, taken_by};

use crate::sink::PutError;
use std::alloc::AllocError;
use std::io;
use std::io::{ErrorKind, Read, Write};

// Why a reader did not give its bytes.
#[derive(Clone, Copy, Debug, PartialEq, Eq)]
pub(crate) enum ReadError {
    // It has more bytes than were asked for.
    TooBig,
    // A read failed.
    Failed(ErrorKind),
}

impl From<io::Error> for ReadError {
    ghost use Rattle.std.specs.Prelude.{◌≡◌};
    ghost use Rattle.std.specs.IoError.{error_kind};
    ghost use Rattle.ld_io.specs.declared.whole.ReadError.TheVariants.{Failed};

    ghost from_gives = { λ error e. e ≡ Failed (error_kind error) };

    fn from(error: io::Error) -> ReadError {
        ReadError::Failed(error.kind())
    }
}

impl From<AllocError> for ReadError {
    ghost use Rattle.std.specs.Prelude.{◌≡◌};
    ghost use Rattle.std.specs.declared.io.ErrorKind.TheVariants.{OutOfMemory};
    ghost use Rattle.ld_io.specs.declared.whole.ReadError.TheVariants.{Failed};

    ghost from_gives = { λ _ e. e ≡ Failed OutOfMemory };

    fn from(_error: AllocError) -> ReadError {
        ReadError::Failed(ErrorKind::OutOfMemory)
    }
}

// Reads what a reader has left, of at most `max` bytes, into the empty `into`; of more it reads one
// byte more.
pub(crate) fn read_whole<R: Read + Drop>(
    reader: R,
    max: u64,
    into: &mut Vec<u8>,
) -> Result<(), ReadError>
    requires empty { into.old.items ≡ [] }
    requires small { max < 2 ^ 32 }
    ensures fits { ReadFits max result into.new.items }
    ensures told { IfSome (R.remaining reader) (λ all. ReadTold all max result into.new.items) }
{
    read_first(reader, max + 1, into)?;
    if into.len() as u64 > max {
        return Err(ReadError::TooBig);
    }
    Ok(())
}

// Reads the first `most` bytes.
fn read_first<R: Read + Drop>(reader: R, most: u64, into: &mut Vec<u8>) -> io::Result<()>
    requires { into.old.items ≡ [] }
    ensures bound { vec_len into.new ≤ most }
    ensures bytes { OnOk result (IfSome (R.remaining reader) (λ all. into.new.items ≡ take most all)) }
{
    let read = reader.take(most).read_to_end(into);
    // Nothing is cut off: the contract of `take` does not give the bound.
    into.truncate(most as usize);
    read?;
    Ok(())
}

// Writes a piece, until it is written whole, a write fails, or one takes nothing.
pub(crate) fn write_whole<W: Write>(writer: &mut W, piece: &[u8]) -> Result<(), PutError>
    ensures { WriteTold (W.contents writer.old) (W.contents writer.new) piece.now result }
{
    let mut taken = 0;
    for _ in 0..u64::MAX {
        if taken == piece.len() {
            break;
        }
        match write_some(writer, &piece[taken..]) {
            Ok(count) => taken += count,
            Err(_) => break,
        }
    }
    if taken < piece.len() {
        return Err(PutError::Failed);
    }
    Ok(())
}

// One write, and how many bytes it took.
fn write_some<W: Write>(writer: &mut W, piece: &[u8]) -> Result<usize, PutError>
    ensures { MatchResult result
        (λ n. (n ≤ length piece.now) × Appends (W.contents writer.old) (W.contents writer.new) (take n piece.now))
        (λ _. Keeps (W.contents writer.old) (W.contents writer.new)) }
{
    taken_by(writer.write(piece))
}

// None where a signal came in between; to take none otherwise is to fail.
fn taken_by(written: io::Result<usize>) -> Result<usize, PutError>
    ensures { result ≡ taken_by written }
{
    match written {
        Ok(0) => Err(PutError::Failed),
        Ok(count) => Ok(count),
        Err(error) => match error.kind() {
            ErrorKind::Interrupted => Ok(0),
            _ => Err(PutError::Failed),
        },
    }
}
