//! The crates as a library: a model in memory is loaded, answered, edited, and answered again.
use ld_colour::{Colour, Table};
use ld_engine::{AnswerError, EditError, Limits, LoadError, OpenError, Workspace};
use ld_io::{MemShelf, Place};
use ld_names::{FileId, List, NameError, normal};
use ld_report::print_entries;
use ld_texts::{Edit, EditRefusal};
use std::alloc::{AllocError, Global};

const LIMITS: Limits = Limits {
    entries: 1_000_000,
    depth: 32,
    cache: 0,
    texts: 1_000,
    file_bytes: 1_000_000,
    total_weight: 10_000_000,
};

// A part of the library.
const TILE: &[u8] = b"0 Tile
0 !LDRAW_ORG Part
0 BFC CERTIFY CCW
4 16 -10 0 -10 -10 0 10 10 0 10 10 0 -10
";

// A model of a red tile and a blue one beside it.
const MODEL: &[u8] = b"1 4 0 0 0 1 0 0 0 1 0 0 0 1 tile.dat
1 1 20 0 0 1 0 0 0 1 0 0 0 1 tile.dat
";

const ENTRIES: &str = "part 4 - parts/tile.dat at model/two.ldr:1
quad 4 - cert clip ccw -10,0,-10 -10,0,10 10,0,10 10,0,-10 parts/tile.dat:4
part 1 - parts/tile.dat at model/two.ldr:2
quad 1 - cert clip ccw 10,0,-10 10,0,10 30,0,10 30,0,-10 parts/tile.dat:4
";

// A line that moves the second tile down and makes it yellow.
const YELLOW: &[u8] = b"1 14 20 8 0 1 0 0 0 1 0 0 0 1 tile.dat";

const EDITED: &str = "part 4 - parts/tile.dat at model/two.ldr:1
quad 4 - cert clip ccw -10,0,-10 -10,0,10 10,0,10 10,0,-10 parts/tile.dat:4
part 14 - parts/tile.dat at model/two.ldr:2
quad 14 - cert clip ccw 10,8,-10 10,8,10 30,8,10 30,8,-10 parts/tile.dat:4
";

// What may go wrong, as each call says it.
#[derive(Debug, Drop)]
enum Error {
    Name(NameError),
    Open(OpenError),
    Load(LoadError),
    Answer(AnswerError),
    Edit(EditError),
    Memory,
}

impl From<AllocError> for Error {
    fn from(_error: AllocError) -> Error {
        Error::Memory
    }
}

// A workspace that knows the model, and its main model.
fn load(alloc: Global) -> Result<(Workspace, FileId), Error> {
    let own = normal(alloc, b"two.ldr").map_err(Error::Name)?;
    let mut workspace = Workspace::open(alloc, LIMITS).map_err(Error::Open)?;
    let main = workspace.load(&own, MODEL).map_err(Error::Load)?;
    Ok((workspace, main))
}

// The printed entries of a file and of all that it refers to.
fn entries(
    alloc: Global,
    workspace: &mut Workspace,
    shelf: &mut MemShelf,
    file: &FileId,
) -> Result<Vec<u8>, Error> {
    let answer = workspace
        .answer(shelf, file, Colour::Main)
        .map_err(Error::Answer)?;
    let mut text = Vec::new(alloc);
    print_entries(
        workspace.texts(),
        &Table::empty(alloc),
        answer.entries.as_slice(),
        &mut text,
    )?;
    Ok(text)
}

// The edit that makes a line of a file the yellow tile.
fn yellow(alloc: Global, file: &FileId, line: u32) -> Result<Edit, AllocError> {
    Ok(Edit::Set {
        file: file.copy(alloc)?,
        line,
        text: List::from_slice(alloc, YELLOW)?,
    })
}

#[test]
fn a_model_is_answered_and_edited(rt: HostRuntime) -> Result<(), Error> {
    let alloc = rt.alloc();
    let mut shelf = MemShelf::new(alloc);
    shelf.add(Place::Parts, b"tile.dat", TILE)?;
    let (mut workspace, main) = load(alloc)?;
    let before = entries(alloc, &mut workspace, &mut shelf, &main)?;
    assert!(rt; before.as_slice() == ENTRIES.as_bytes());

    // The second line is set, and the model is answered as it now stands.
    let second = yellow(alloc, &main, 2)?;
    workspace.edit(&mut shelf, &second).map_err(Error::Edit)?;
    let after = entries(alloc, &mut workspace, &mut shelf, &main)?;
    assert!(rt; after.as_slice() == EDITED.as_bytes());

    // The model has two lines: an edit of a third is refused, and nothing changes.
    let third = yellow(alloc, &main, 3)?;
    let refused = workspace.edit(&mut shelf, &third);
    assert!(rt; matches!(refused, Err(EditError::Refused(EditRefusal::NoLine(2)))));
    let unchanged = entries(alloc, &mut workspace, &mut shelf, &main)?;
    assert!(rt; unchanged == after);
    Ok(())
}
