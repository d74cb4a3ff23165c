// Lines that take the place of an answer.
ghost use Rattle.std.specs.Prelude.{◌≡◌, ◌≢◌, ◌++◌, IfOk, codes, decimal};
ghost use Rattle.ld_engine.specs.Learning.{TooBig};
ghost use Rattle.ld_report.specs.Pieces.{file_text};
ghost use Rattle.ld_cmd.specs.Ending.{IsWhole};
ghost use Rattle.ld_cmd.specs.Made.{Stops};
ghost use Rattle.ld_cmd.specs.Written.{one_piece, over_text, stop_text};
ghost use Rattle.ld_cmd.specs.declared.status.Status.TheVariants.{Limit, Usage};

use crate::made::{Made, Stop};
use crate::status::Status;
use itoa::Buffer;
use ld_names::FileId;
use ld_report::printed_file;
use ld_texts::Over;
use std::alloc::{AllocError, Global};

// A line about a word, which decides the output.
pub(crate) fn about_word(alloc: Global, what: &[u8], word: &[u8], status: Status) -> Stop
    requires whole { IsWhole status }
    requires answers { status ≢ Usage }
    ensures decided { Stops (one_piece (what.now ++ word.now ++ codes "\n") status) result }
    ensures no_fault { result ≢ Stop.ReadFault }
{
    match line_of(alloc, what, word) {
        Ok(text) => Stop::Decided(Made { text, status }),
        Err(_) => Stop::Memory,
    }
}

fn line_of(alloc: Global, what: &[u8], word: &[u8]) -> Result<Vec<u8>, AllocError>
    ensures { IfOk result (λ text. text.items ≡ what.now ++ word.now ++ codes "\n") }
{
    let mut text = Vec::with_capacity(alloc, word.len())?;
    text.extend_from_slice(what)?;
    text.extend_from_slice(word)?;
    text.push(b'\n')?;
    Ok(text)
}

// A line with a number, which decides the output.
pub(crate) fn about_number(alloc: Global, what: &[u8], number: u64, status: Status) -> Stop
    requires whole { IsWhole status }
    requires answers { status ≢ Usage }
    ensures decided { Stops (one_piece (what.now ++ decimal number ++ codes "\n") status) result }
    ensures no_fault { result ≢ Stop.ReadFault }
{
    about_word(alloc, what, Buffer::new().format(number).as_bytes(), status)
}

// The line about a limit that is passed, with what was kept before it.
pub(crate) fn about_limit(alloc: Global, over: Over) -> Stop
    ensures decided { Stops (one_piece (over_text over) Limit) result }
    ensures no_fault { result ≢ Stop.ReadFault }
{
    match over {
        Over::Files(kept) => { about_number(alloc, b"full files ", u64::from(kept), Status::Limit) }
        Over::Weight(kept) => about_number(alloc, b"full weight ", kept, Status::Limit),
    }
}

// The line about a file that is too big to be learnt.
pub(crate) fn about_file(alloc: Global, file: &FileId) -> Stop
    ensures decided { Stops (one_piece (stop_text (TooBig file.now)) Limit) result }
    ensures no_fault { result ≢ Stop.ReadFault }
{
    match printed_file(alloc, file) {
        Ok(name) => about_word(alloc, b"toobig ", name.as_slice(), Status::Limit),
        Err(_) => Stop::Memory,
    }
}
