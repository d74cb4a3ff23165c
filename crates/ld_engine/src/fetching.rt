// Texts from a shelf.
ghost use Rattle.std.specs.Prelude.{◌≡◌, ◌<◌, IfOk, IfSome, Err, true};
ghost use Rattle.ld_io.specs.Shelf.{IsOnlyRead};
ghost use Rattle.ld_engine.specs.Fetching.{BytesTold, TextTold};
ghost use Rattle.ld_engine.specs.Learning.{bytes_on, is_clean, place_of, text_by};

use ld_io::{FetchError, Fetched, Place, Shelf};
use ld_mpd::{block_laws, text_of};
use ld_names::{Bytes, FileId, Folder, Lines, List};
use std::alloc::{AllocError, Global};

// Why a file's text is not to be had.
#[derive(Clone, Copy)]
pub(crate) enum FetchStop {
    ReadFault,
    TooBig,
    Memory,
}

impl From<AllocError> for FetchStop {
    ghost use Rattle.std.specs.Prelude.{◌≡◌};
    ghost use Rattle.ld_engine.specs.declared.fetching.FetchStop.TheVariants.{Memory};

    ghost from_gives = { λ _ e. e ≡ Memory };

    fn from(_error: AllocError) -> FetchStop {
        FetchStop::Memory
    }
}

fn place_of(folder: Folder) -> Place
    ensures { result ≡ place_of folder }
{
    match folder {
        Folder::Model(_) => Place::Model,
        Folder::Parts => Place::Parts,
        Folder::P => Place::P,
    }
}

// The bytes that the shelf has of a file, if there is one.
fn fetch_bytes<S: Shelf>(
    alloc: Global,
    shelf: &mut S,
    file: &FileId,
    most: u32,
) -> Result<Option<Bytes>, FetchStop>
    ensures told { IfSome (S.files shelf.old) (λ files. BytesTold (bytes_on files file.now) most result) }
    ensures shelf { IsOnlyRead (S.files shelf.old) (S.files shelf.new) (S.faults shelf.old) (S.faults shelf.new) (result ≡ Err FetchStop.ReadFault) }
{
    let mut bytes = Vec::new(alloc);
    match shelf.fetch(
        place_of(file.folder),
        file.name.bytes(),
        u64::from(most),
        &mut bytes,
    ) {
        Ok(Fetched::Found) => Ok(Some(List::from_vec(bytes))),
        Ok(Fetched::Absent) => Ok(None),
        Err(FetchError::Failed) => Err(FetchStop::ReadFault),
        Err(FetchError::TooBig) => Err(FetchStop::TooBig),
        Err(FetchError::Memory) => Err(FetchStop::Memory),
    }
}

// The text of a file by its bytes.
fn read_text(
    alloc: Global,
    file: &FileId,
    bytes: Option<Bytes>,
) -> Result<Option<Lines>, AllocError>
    ensures text { IfOk result (λ text. text ≡ text_by file.now bytes) }
    ensures clean { IfOk result (λ text. is_clean text ≡ true) }
{
    block_laws();
    match bytes {
        None => Ok(None),
        Some(bytes) => Ok(Some(text_of(alloc, bytes.as_slice())?)),
    }
}

// The text that the shelf has of a file, or that there is none.
pub(crate) fn fetch_text<S: Shelf>(
    alloc: Global,
    shelf: &mut S,
    file: &FileId,
    most: u32,
) -> Result<Option<Lines>, FetchStop>
    ensures told { IfSome (S.files shelf.old) (λ files. TextTold file.now (bytes_on files file.now) most result) }
    ensures clean { IfOk result (λ text. is_clean text ≡ true) }
    ensures shelf { IsOnlyRead (S.files shelf.old) (S.files shelf.new) (S.faults shelf.old) (S.faults shelf.new) (result ≡ Err FetchStop.ReadFault) }
{
    let bytes = fetch_bytes(alloc, shelf, file, most)?;
    let text = read_text(alloc, file, bytes)?;
    Ok(text)
}
