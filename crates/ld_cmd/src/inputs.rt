// The files that the words name.
ghost use Rattle.std.specs.Prelude.{◌≡◌, ◌≢◌, ◌≤◌, ◌↔◌, ℕ, Result, Ok, Err, IfErr, IfOk, IfSome, length, option_map};
ghost use Rattle.std.specs.Result.{IsErr};
ghost use Rattle.ld_io.specs.Shelf.{FetchFits, IsOnlyRead};
ghost use Rattle.ld_colour.specs.Table.{Counting, IsRefused, counting, table_in};
ghost use Rattle.ld_cmd.specs.Made.{Gives, GivesInput};
ghost use Rattle.ld_cmd.specs.Output.{file_bytes, input, table_by, table_of};

use crate::lines::{about_number, about_word};
use crate::made::Stop;
use crate::status::Status;
use ld_colour::{Table, TableError};
use ld_io::{FetchError, Fetched, Place, Shelf};
use ld_names::{Bytes, List};
use std::alloc::Global;

// The most bytes that a file may have.
pub(crate) const FILE_BYTES: u32 = 33_554_432;

// The bytes of the file that a word names.
pub(crate) fn read_input<S: Shelf>(alloc: Global, word: &[u8], shelf: &mut S) -> Result<Bytes, Stop>
    ensures told { IfSome (S.files shelf.old) (λ files. Gives (λ bytes. bytes) (input word.now (files Place.Work word.now)) result) }
    ensures size { IfOk result (λ bytes. length bytes ≤ file_bytes) }
    ensures shelf { IsOnlyRead (S.files shelf.old) (S.files shelf.new) (S.faults shelf.old) (S.faults shelf.new) (result ≡ Err Stop.ReadFault) }
{
    let mut bytes = Vec::new(alloc);
    let fetched = shelf.fetch(Place::Work, word, u64::from(FILE_BYTES), &mut bytes);
    input_or_line(alloc, word, fetched, bytes)
}

// By what a fetch of a word's file gave. Memory is lacking only where it was then, or a line is wanted.
fn input_or_line(
    alloc: Global,
    word: &[u8],
    fetched: Result<Fetched, FetchError>,
    bytes: Vec<u8>,
) -> Result<Bytes, Stop>
    requires fits { FetchFits file_bytes fetched bytes.items }
    ensures told { GivesInput word.now fetched bytes.items result }
    ensures size { IfOk result (λ bytes. length bytes ≤ file_bytes) }
    ensures fault { result ≡ Err Stop.ReadFault ↔ fetched ≡ Err FetchError.Failed }
    ensures memory { result ≡ Err Stop.Memory → fetched ≢ Ok Fetched.Found }
{
    match fetched {
        Ok(Fetched::Found) => Ok(List::from_vec(bytes)),
        Ok(Fetched::Absent) => Err(about_word(alloc, b"absent ", word, Status::Input)),
        Err(FetchError::TooBig) => Err(about_word(alloc, b"toobig ", word, Status::Limit)),
        Err(FetchError::Failed) => Err(Stop::ReadFault),
        Err(FetchError::Memory) => Err(Stop::Memory),
    }
}

// The colours of the file that a word names, if there is one.
pub(crate) fn read_table<S: Shelf>(
    alloc: Global,
    word: Option<&str>,
    shelf: &mut S,
) -> Result<Table, Stop>
    ensures told { IfSome (S.files shelf.old) (λ files. Gives counting (table_of (option_map (λ file. file.now) word.entry) files) result) }
    ensures shelf { IsOnlyRead (S.files shelf.old) (S.files shelf.new) (S.faults shelf.old) (S.faults shelf.new) (result ≡ Err Stop.ReadFault) }
{
    let Some(word) = word else {
        return Ok(Table::empty(alloc));
    };
    match read_input(alloc, word.as_bytes(), shelf) {
        Ok(bytes) => table_by(alloc, bytes.as_slice()),
        Err(stop) => Err(stop),
    }
}

fn table_by(alloc: Global, bytes: &[u8]) -> Result<Table, Stop>
    requires { length bytes.now ≤ file_bytes }
    ensures told { Gives counting (table_by (table_in bytes.now)) result }
    ensures no_fault { result ≢ Err Stop.ReadFault }
{
    table_or_line(alloc, Table::read(alloc, bytes))
}

// By what reading a colour file gave. Memory is lacking only where it was then, or a line is wanted.
fn table_or_line(alloc: Global, read: Result<Table, TableError>) -> Result<Table, Stop>
    ensures told { (wanted : Result Counting ℕ) → IfOk read (λ table. wanted ≡ Ok (counting table)) → IfErr read (λ e. IsRefused wanted e)
        → Gives counting (table_by wanted) result }
    ensures no_fault { result ≢ Err Stop.ReadFault }
    ensures memory { result ≡ Err Stop.Memory → IsErr read }
{
    match read {
        Ok(table) => Ok(table),
        Err(TableError::BadColour(number)) => Err(about_number(
            alloc,
            b"badcolour ",
            u64::from(number),
            Status::Input,
        )),
        Err(TableError::Memory) => Err(Stop::Memory),
    }
}
