//! Worked moved texts, which only say where a part moved to.
ghost use Rattle.std.specs.Prelude.{◌≡◌, [], ◌∷◌, None, Some, codes, map};
ghost use Rattle.ld_names.specs.Standing.{file_in, known_map};
ghost use Rattle.ld_names.specs.declared.file.Folder.TheVariants.{Model, Parts};
ghost use Rattle.ld_line.specs.Moved.{moved_line, target};

use ld_line::{lines_of, moved_reference};
use std::alloc::Global;

// Lines with `;` between them, and the number of the one reference of what moved.
const MOVED: [(&str, Option<u32>); 15] = [
    (
        "0 ~Moved to 3001;1 16 0 0 0 1 0 0 0 1 0 0 0 1 3001.dat",
        Some(2),
    ),
    (
        " 0\t~Moved  to;0 x;;1 16 0 0 0 1 0 0 0 1 0 0 0 1 c:/x",
        Some(4),
    ),
    (
        "0 ~Moved to x;0 !LDRAW_ORG Part;9;1 16 0 0 0 1 0 0 0 1 0 0 0 1 x",
        Some(4),
    ),
    (
        "0 ~Moved to x;1 16 0 0 0 1 0 0 0 1 0 0 0 1 x;1 16 0 0 0 1 0 0 0 1 0 0 0 1",
        Some(2),
    ),
    (
        "0 ~Moved to x;1 16 0 0 0 1 0 0 0 1 0 0 0 1 x;1 16 0 0 0 1 0 0 0 1 0 0 0 1 x",
        None,
    ),
    (
        "0 ~Moved to x;1 16 0 0 0 1 0 0 0 1 0 0 0 1 x;2 24 0 0 0 1 0 0",
        None,
    ),
    (
        "0 ~Moved to x;5 24 0 0 0 1 0 0 0 1 0 1 1 0;1 16 0 0 0 1 0 0 0 1 0 0 0 1 x",
        None,
    ),
    ("0 ~Moved to x;1 16 2000000 0 0 1 0 0 0 1 0 0 0 1 x", None),
    ("0 ~Moved to x", None),
    ("0 ~moved to x;1 16 0 0 0 1 0 0 0 1 0 0 0 1 x", None),
    ("0 ~Moved To x;1 16 0 0 0 1 0 0 0 1 0 0 0 1 x", None),
    ("0 ~Moved;1 16 0 0 0 1 0 0 0 1 0 0 0 1 x", None),
    (";0 ~Moved to x;1 16 0 0 0 1 0 0 0 1 0 0 0 1 x", None),
    ("0 Moved to x;1 16 0 0 0 1 0 0 0 1 0 0 0 1 x", None),
    ("", None),
];

fn moved_holds(alloc: Global, text: &str, wanted: Option<u32>) -> bool {
    let Ok(text) = text.replace(alloc, ";", "\n") else {
        return false;
    };
    match lines_of(alloc, text.as_bytes()) {
        Ok(lines) => { lines.as_slice().len() < 100 && moved_reference(lines.as_slice()) == wanted }
        Err(_) => false,
    }
}

#[test]
fn moved_texts(rt: HostRuntime) {
    let alloc = rt.alloc();
    for (text, wanted) in MOVED {
        assert!(rt; moved_holds(alloc, text, wanted), "{text:?}");
    }
}

// The definitions, by computing: of one reference, of two, with a line that draws, without the title;
// in a model's folder; and a name without a normal form.
fn moved_texts_by_definition()
    ensures one_reference { let to_b = codes "1 16 0 0 0 1 0 0 0 1 0 0 0 1 b" in
        map (moved_line Parts) ((codes "0 ~Moved to b" ∷ to_b ∷ []) ∷ (codes "0 ~Moved to b" ∷ to_b ∷ to_b ∷ []) ∷ (codes "0 ~Moved to b" ∷ to_b ∷ codes "2 24 0 0 0 1 0 0" ∷ []) ∷ (codes "0 b" ∷ to_b ∷ []) ∷ [])
        ≡ Some 2 ∷ None ∷ None ∷ None ∷ [] }
    ensures part_texts { let to_b = codes "1 16 0 0 0 1 0 0 0 1 0 0 0 1 b" in
        map (moved_line (Model 1)) ((codes "0 ~Moved to b" ∷ to_b ∷ codes "0 !LDRAW_ORG Part" ∷ []) ∷ (codes "0 ~Moved to b" ∷ to_b ∷ []) ∷ []) ≡ Some 2 ∷ None ∷ [] }
    ensures no_name { let lines = codes "0 ~Moved to b" ∷ codes "1 16 0 0 0 1 0 0 0 1 0 0 0 1 c:/b" ∷ [] in
        target (known_map ((file_in Parts (codes "a"), Some lines) ∷ [])) (file_in Parts (codes "a")) ≡ file_in Parts (codes "a") }
{}
