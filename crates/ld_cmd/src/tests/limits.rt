//! Models at limits.
use ld_colour::Colour;
use ld_engine::{Limits, Workspace};
use ld_io::{MemShelf, Place};
use ld_names::{FileId, List, normal};
use ld_texts::Edit;
use std::alloc::{AllocError, Global};

const SMALL: Limits = Limits {
    entries: 2,
    depth: 2,
    cache: 0,
    texts: 9,
    file_bytes: 100,
    total_weight: 1000,
};

const X: &[u8] = b"1 16 0 0 0 1 0 0 0 1 0 0 0 1 x.dat";

const LINE: &[u8] = b"2 24 0 0 0 1 0 0";

fn put(told: &mut String, text: Result<String, AllocError>) -> bool {
    match text {
        Ok(text) => told.push_str(text.as_str()).is_ok(),
        Err(_) => false,
    }
}

fn insert(alloc: Global, main: &FileId) -> Result<Edit, AllocError> {
    Ok(Edit::Insert {
        file: main.copy(alloc)?,
        line: 2,
        text: List::from_slice(alloc, b"0")?,
    })
}

fn tell_edit(
    alloc: Global,
    workspace: &mut Workspace,
    shelf: &mut MemShelf,
    main: &FileId,
    told: &mut String,
) -> bool {
    let Ok(insert) = insert(alloc, main) else {
        return false;
    };
    let edited = workspace.edit(shelf, &insert);
    put(told, format!(in alloc; "{edited:?} "))
}

fn tell_answer(
    alloc: Global,
    workspace: &mut Workspace,
    shelf: &mut MemShelf,
    main: &FileId,
    told: &mut String,
) -> bool {
    match workspace.answer(shelf, main, Colour::Main) {
        Ok(answer) => put(
            told,
            format!(in alloc; "{}", answer.entries.as_slice().len()),
        ),
        Err(error) => put(told, format!(in alloc; "{error:?}")),
    }
}

fn tell_fetches(alloc: Global, shelf: &MemShelf, told: &mut String) -> bool {
    let fetches = shelf.fetches();
    put(told, format!(in alloc; ", {fetches} fetched"))
}

// Tells the weight of a loaded model, an Insert of `0` at its line 2, the number of entries of its
// answer, and how many files were fetched, over a shelf with a part `x.dat`.
fn tell_loaded(
    alloc: Global,
    workspace: &mut Workspace,
    main: &FileId,
    part: &[u8],
    told: &mut String,
) -> bool {
    let mut shelf = MemShelf::new(alloc);
    if !part.is_empty() && shelf.add(Place::Parts, b"x.dat", part).is_err() {
        return false;
    }
    let weight = workspace.texts().weight();
    put(told, format!(in alloc; "{weight} "))
        && tell_edit(alloc, workspace, &mut shelf, main, told)
        && tell_answer(alloc, workspace, &mut shelf, main, told)
        && tell_fetches(alloc, &shelf, told)
}

fn tell_model(alloc: Global, limits: Limits, model: &[u8], part: &[u8], told: &mut String) -> bool {
    let mut workspace = match Workspace::open(alloc, limits) {
        Ok(workspace) => workspace,
        Err(error) => return put(told, format!(in alloc; "{error:?}")),
    };
    let Ok(own) = normal(alloc, b"m.ldr") else {
        return false;
    };
    if model.len() > limits.file_bytes as usize {
        return false;
    }
    match workspace.load(&own, model) {
        Ok(main) => tell_loaded(alloc, &mut workspace, &main, part, told),
        Err(error) => put(told, format!(in alloc; "{error:?}")),
    }
}

fn gives(alloc: Global, limits: Limits, model: &[u8], part: &[u8], wanted: &str) -> bool {
    let mut told = String::new(alloc);
    tell_model(alloc, limits, model, part, &mut told) && told.as_str() == wanted
}

const BIG_PART: &[u8] = b"0 34567890123456789012345678901234567890_";

const BIG: &str =
    "66 Ok(()) TooBig(FileId { folder: Parts, name: Name { bytes: List { items: [120, 46, 100, 97, 116] } } }), 2 fetched";

// The worked example workspace-limits, and a model within all limits. Where the list of files is full,
// none is fetched to be dropped.
#[test]
fn workspace_limits(rt: HostRuntime) {
    let alloc = rt.alloc();
    let few = Limits { texts: 2, ..SMALL };
    let short = Limits {
        file_bytes: 40,
        ..SMALL
    };
    let light = Limits {
        total_weight: 40,
        ..SMALL
    };
    let bad = Limits {
        depth: 0,
        cache: 8_000_001,
        ..few
    };
    assert!(rt;
        gives(alloc, SMALL, X, LINE, "66 Ok(()) 2, 2 fetched"),
        "within"
    );
    assert!(rt;
        gives(alloc, few, X, b"", "66 Ok(()) Full(Files(2)), 1 fetched"),
        "files"
    );
    assert!(rt; gives(alloc, short, X, BIG_PART, BIG), "bytes of a file");
    assert!(rt;
        gives(
            alloc,
            light,
            b"0 a b cd",
            b"",
            "40 Err(Refused(Full(40))) 0, 0 fetched"
        ),
        "edit"
    );
    assert!(rt;
        gives(alloc, light, b"0 a b cde", b"", "Full(Weight(0))"),
        "weight"
    );
    assert!(rt; gives(alloc, bad, X, b"", "BadLimit(2)"), "limits");
}
