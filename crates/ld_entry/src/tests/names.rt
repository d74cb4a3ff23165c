ghost use Rattle.std.specs.Prelude.{◌≡◌, [], ◌∷◌, Err, None, Ok, Some, codes, map, replicate};
ghost use Rattle.ld_names.specs.Normal.{normal_of};
ghost use Rattle.ld_names.specs.Standing.{Absent, Present, Unknown, find, known_map, standing};
ghost use Rattle.ld_names.specs.declared.file.FileId.{FileId};
ghost use Rattle.ld_names.specs.declared.file.Folder.TheVariants.{Model, P, Parts};
ghost use Rattle.ld_names.specs.declared.name.NameError.TheVariants.{Control, Empty, NotRelative, TooLong};

use ld_names::{Bytes, FileId, Folder, Folders, Lines, List, Name, NameError, normal, order};
use std::alloc::{AllocError, Global};
use std::cmp::Ordering;

// The worked example names, and more names.
static NAMES: [(&[u8], Result<&[u8], NameError>); 36] = [
    (b"S\\3001S01.DAT", Ok(b"s/3001s01.dat")),
    (b"s/3001s01.dat", Ok(b"s/3001s01.dat")),
    (b" \t my Car.ldr\t ", Ok(b"my car.ldr")),
    (b"48\\ 4-4Disc.dat", Ok(b"48/ 4-4disc.dat")),
    (b"@AZ[\\`az{~", Ok(b"@az[/`az{~")),
    (b"\xc3\x84\x80\xff.DAT", Ok(b"\xc3\x84\x80\xff.dat")),
    (b"...", Ok(b"...")),
    (b".a/..b/c..", Ok(b".a/..b/c..")),
    (b"1:x", Ok(b"1:x")),
    (b":x", Ok(b":x")),
    (b"ab:c", Ok(b"ab:c")),
    (&[b'A'; 255], Ok(&[b'a'; 255])),
    (b"", Err(NameError::Empty)),
    (b"  ", Err(NameError::Empty)),
    (b" \t", Err(NameError::Empty)),
    (&[b'a'; 256], Err(NameError::TooLong)),
    (&[1; 256], Err(NameError::TooLong)),
    (&[b'/'; 256], Err(NameError::TooLong)),
    (b"C:\\x.dat", Err(NameError::NotRelative)),
    (b"c:x", Err(NameError::NotRelative)),
    (b"z:", Err(NameError::NotRelative)),
    (b"../x.dat", Err(NameError::NotRelative)),
    (b"a//b", Err(NameError::NotRelative)),
    (b"a\\\\b", Err(NameError::NotRelative)),
    (b"a/./b", Err(NameError::NotRelative)),
    (b"a\\..", Err(NameError::NotRelative)),
    (b".", Err(NameError::NotRelative)),
    (b"..", Err(NameError::NotRelative)),
    (b"/a", Err(NameError::NotRelative)),
    (b"a/", Err(NameError::NotRelative)),
    (b"../\x01", Err(NameError::NotRelative)),
    (b"a\x01b", Err(NameError::Control)),
    (b"a\tb", Err(NameError::Control)),
    (b"\x00", Err(NameError::Control)),
    (b"a\x1f", Err(NameError::Control)),
    (b"a\x7f", Err(NameError::Control)),
];

fn is_normal(alloc: Global, text: &[u8], wanted: Result<&[u8], NameError>) -> bool {
    match normal(alloc, text) {
        Ok(name) => wanted == Ok(name.bytes()),
        Err(error) => wanted == Err(error),
    }
}

#[test]
fn normal_forms(rt: HostRuntime) {
    let alloc = rt.alloc();
    for (text, wanted) in &NAMES {
        assert!(rt; is_normal(alloc, text, *wanted), "{text:?}");
    }
}

// Files, and how a part's name stands to each.
static FILES: [(Folder, &[u8], Ordering); 8] = [
    (Folder::Parts, b"S\\3001S01.DAT", Ordering::Equal),
    (Folder::Parts, b"s/3001s01.da", Ordering::Greater),
    (Folder::Parts, b"s/3001s01.dat1", Ordering::Less),
    (Folder::Parts, b"s/3001s01.da\xff", Ordering::Less),
    (Folder::Model(1), b"s/3001s01.dat", Ordering::Greater),
    (Folder::Model(1), b"z", Ordering::Greater),
    (Folder::Model(16), b"z", Ordering::Greater),
    (Folder::P, b"a", Ordering::Less),
];

fn file(alloc: Global, folder: Folder, name: &[u8]) -> Result<FileId, NameError> {
    let name = normal(alloc, name)?;
    Ok(FileId { folder, name })
}

fn is_ordered(part: &FileId, other: &FileId, wanted: Ordering) -> bool {
    part.cmp(other) == wanted && (part == other) == (wanted == Ordering::Equal)
}

fn file_row_holds(
    alloc: Global,
    part: &FileId,
    folder: Folder,
    name: &[u8],
    wanted: Ordering,
) -> bool {
    match file(alloc, folder, name) {
        Ok(other) => is_ordered(part, &other, wanted),
        Err(_) => false,
    }
}

fn is_copied(alloc: Global, file: &FileId) -> bool {
    match file.copy(alloc) {
        Ok(copy) => copy == *file,
        Err(_) => false,
    }
}

fn name_is_copied(alloc: Global, name: &Name) -> bool {
    match name.copy(alloc) {
        Ok(copy) => copy == *name,
        Err(_) => false,
    }
}

#[test]
fn files(rt: HostRuntime) -> Result<(), NameError> {
    let alloc = rt.alloc();
    let part = file(alloc, Folder::Parts, b"s/3001s01.dat")?;
    for (folder, name, wanted) in &FILES {
        assert!(rt;
            file_row_holds(alloc, &part, *folder, name, *wanted),
            "{name:?}"
        );
    }
    assert!(rt; is_copied(alloc, &part));
    assert!(rt; name_is_copied(alloc, &part.name));
    Ok(())
}

// The folders in which a file is looked for, and how many of them there are.
const ORDERS: [(Folder, u8, [Folder; 3]); 4] = [
    (
        Folder::Model(1),
        3,
        [Folder::Model(1), Folder::Parts, Folder::P],
    ),
    (
        Folder::Model(16),
        3,
        [Folder::Model(16), Folder::Parts, Folder::P],
    ),
    (Folder::Parts, 2, [Folder::Parts, Folder::P, Folder::P]),
    (Folder::P, 2, [Folder::Parts, Folder::P, Folder::P]),
];

fn is_order(from: Folder, count: u8, list: [Folder; 3]) -> bool {
    order(from) == Folders { count, list }
}

#[test]
fn folders(rt: HostRuntime) {
    for (from, count, list) in ORDERS {
        assert!(rt; is_order(from, count, list), "{from:?}");
    }
}

fn one_to_three(alloc: Global) -> Result<Bytes, AllocError> {
    let mut list = List::from_slice(alloc, &[1u8, 2])?;
    list.push(3)?;
    Ok(list)
}

fn one_line(alloc: Global) -> Result<Lines, AllocError> {
    let line = one_to_three(alloc)?;
    let mut lines = List::new(alloc);
    lines.push(List::from_vec(line.into_vec()))?;
    Ok(lines)
}

fn is_new_empty(alloc: Global) -> bool {
    let lines: Lines = List::new(alloc);
    lines.as_slice().is_empty()
}

fn is_list(list: Result<Bytes, AllocError>, wanted: &[u8]) -> bool {
    match list {
        Ok(list) => list.as_slice() == wanted,
        Err(_) => false,
    }
}

fn is_one_line(lines: Result<Lines, AllocError>, wanted: &[u8]) -> bool {
    match lines {
        Ok(lines) => lines.as_slice().len() == 1 && lines.as_slice()[0].as_slice() == wanted,
        Err(_) => false,
    }
}

#[test]
fn lists(rt: HostRuntime) {
    let alloc = rt.alloc();
    assert!(rt; is_new_empty(alloc));
    assert!(rt; is_list(one_to_three(alloc), &[1, 2, 3]));
    assert!(rt; is_one_line(one_line(alloc), &[1, 2, 3]));
}

// The definitions, by computing.
fn normal_forms_by_definition()
    ensures same { map normal_of (codes "S\\3001S01.DAT" ∷ codes "s/3001s01.dat" ∷ []) ≡ replicate 2 (Ok (codes "s/3001s01.dat")) }
    ensures empty { normal_of (codes "  ") ≡ Err Empty }
    ensures too_long { normal_of (replicate 256 97) ≡ Err TooLong }
    ensures not_relative { map normal_of (codes "C:\\x.dat" ∷ codes "../x.dat" ∷ codes "a//b" ∷ []) ≡ replicate 3 (Err NotRelative) }
    ensures control { normal_of (97 ∷ 1 ∷ 98 ∷ []) ≡ Err Control }
{}

#[tactic(auto, unfolding(ld_names::specs::Standing::find, ld_names::specs::Standing::known_map, ld_names::specs::Standing::same_file, ld_names::specs::Standing::folders_of, ld_names::specs::Standing::standing))]
fn lookups_by_definition()
    ensures unknown { find (λ _. None) P (codes "x") ≡ Unknown Parts }
    ensures absent { find (λ _. Some None) (Model 1) (codes "x") ≡ Absent }
    ensures present { let x : FileId = record { folder = Parts; name = codes "x" } in
        find (known_map ((record x { folder = Model 1 }, None) ∷ (x, Some []) ∷ (x, None) ∷ [])) (Model 1) x.name ≡ Present x }
    ensures behind_unknown { let x : FileId = record { folder = P; name = codes "x" } in
        find (known_map ((x, Some []) ∷ [])) (Model 1) x.name ≡ Unknown (Model 1) }
    ensures document { let x : FileId = record { folder = Model 2; name = codes "x" } in
        map (λ document. find (known_map ((record x { folder = Model 1 }, None) ∷ (x, Some []) ∷ [])) (Model document) x.name) (1 ∷ 2 ∷ 3 ∷ []) ≡ Unknown Parts ∷ Present x ∷ Unknown (Model 3) ∷ [] }
    ensures standing { let x : FileId = record { folder = P; name = codes "x" } in
        let y : FileId = record { folder = P; name = codes "y" } in
        map (standing (known_map ((x, None) ∷ [])) (λ _. Some [])) (x ∷ y ∷ []) ≡ Some None ∷ Some (Some []) ∷ [] }
{}
