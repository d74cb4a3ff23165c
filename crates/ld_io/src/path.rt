// Where files lie.
ghost use Rattle.std.specs.Prelude.{◌≡◌, ◌++◌, MatchOption, IfOk, string_bytes};
ghost use Rattle.ld_io.specs.OsShelf.{path_of, HasNoPath};

use crate::shelf::Place;
use std::alloc::{AllocError, Global};
use std::str;

// The path of a name at a place, by the folders of the library and of the model.
pub(crate) fn path_in(
    alloc: Global,
    library: &str,
    model: &str,
    place: Place,
    name: &str,
) -> Result<String, AllocError>
    ensures { IfOk result (λ path. string_bytes path ≡ path_of library.now model.now place name.now) }
{
    match place {
        Place::Work => String::from_str(alloc, name),
        Place::Model => joined(alloc, model, "/", name),
        Place::Parts => joined(alloc, library, "/parts/", name),
        Place::P => joined(alloc, library, "/p/", name),
    }
}

fn joined(alloc: Global, folder: &str, between: &str, name: &str) -> Result<String, AllocError>
    ensures { IfOk result (λ path. string_bytes path ≡ folder.now ++ between.now ++ name.now) }
{
    format!(in alloc; "{folder}{between}{name}")
}

// A name that can end a path.
pub(crate) fn path_end(name: &[u8]) -> Option<&str>
    ensures { MatchOption result (HasNoPath name.now)
        (λ end. (¬ (HasNoPath name.now)) × (end.now ≡ name.now)) }
{
    if name.contains(&0) {
        return None;
    }
    str::from_utf8(name).ok()
}
