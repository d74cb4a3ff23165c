//! Random worlds: what a graph says of heights and dirt, beside plain walks over all texts.
ghost use Rattle.std.specs.Prelude.{◌≡◌, None, IfOk, IsSome};
ghost use Rattle.ld_graph.specs.Agreeing.{Agrees};
ghost use Rattle.ld_texts.specs.Editing.{AreKnown, files_in};
ghost use Rattle.ld_texts.specs.Known.{id_of};
ghost use Rattle.ld_names.specs.Standing.{Known};

use super::plain::{PlainTexts, plain_dirt, plain_heights, plain_texts};
use crate::{Dirty, Graph};
use ld_names::{Bytes, FileId, Folder, Lines, List, TextId, normal};
use ld_texts::{Change, Edit, LearnError, PrepareError, Texts};
use rand_core::utils::NextWord;
use rand_pcg::Pcg32;
use std::alloc::{AllocError, Global};

static NAMES: [&[u8]; 3] = [b"a.dat", b"b.dat", b"c.dat"];

static FOLDERS: [Folder; 4] = [Folder::Model(1), Folder::Model(2), Folder::Parts, Folder::P];

static LINES: [&[u8]; 4] = [
    b"1 16 0 0 0 1 0 0 0 1 0 0 0 1 a.dat",
    b"1 16 0 0 0 1 0 0 0 1 0 0 0 1 b.dat",
    b"1 16 0 0 0 1 0 0 0 1 0 0 0 1 c.dat",
    b"2 24 0 0 0 1 0 0",
];

fn line(alloc: Global, random: &mut Pcg32) -> Result<Bytes, AllocError> {
    List::from_slice(alloc, LINES[random.next_word() as usize % 4])
}

fn lines(alloc: Global, random: &mut Pcg32) -> Result<Lines, AllocError> {
    let mut lines = List::new(alloc);
    for _ in 0..random.next_word() % 3 {
        lines.push(line(alloc, random)?)?;
    }
    Ok(lines)
}

fn file(alloc: Global, random: &mut Pcg32) -> Result<Option<FileId>, AllocError> {
    let folder = FOLDERS[random.next_word() as usize % 4];
    match normal(alloc, NAMES[random.next_word() as usize % 3]) {
        Ok(name) => Ok(Some(FileId { folder, name })),
        Err(_) => Ok(None),
    }
}

// Texts and the graph over them.
#[derive(Drop)]
struct World {
    texts: Texts,
    graph: Graph,
    depth: u32,
}

fn learn(
    alloc: Global,
    world: &mut World,
    file: &FileId,
    lines: Option<Lines>,
) -> Result<(), PrepareError>
    requires unknown { id_of world.old.texts.known file.now ≡ None }
    requires agrees { Agrees world.old.graph world.old.texts }
    ensures { Agrees world.new.graph world.new.texts }
{
    match world.texts.prepare_file(file, lines) {
        Ok(ready) => {
            let change = world.graph.prepare(alloc, &world.texts, &ready)?;
            world.texts.commit(ready);
            world.graph.commit(&world.texts, change);
            Ok(())
        }
        Err(LearnError::Full(_)) => Ok(()),
        Err(LearnError::Memory) => Err(PrepareError::Memory),
    }
}

fn edit(
    alloc: Global,
    world: &mut World,
    edit: &Edit,
) -> Result<Option<(Change, Dirty)>, PrepareError>
    requires known { AreKnown world.old.texts.known (files_in edit.now) }
    requires agrees { Agrees world.old.graph world.old.texts }
    ensures { Agrees world.new.graph world.new.texts }
{
    match world.texts.prepare(edit) {
        Ok(ready) => {
            let prepared = world.graph.prepare(alloc, &world.texts, &ready)?;
            let change = world.texts.commit(ready);
            Ok(Some((change, world.graph.commit(&world.texts, prepared))))
        }
        Err(PrepareError::Refused(_)) => Ok(None),
        Err(PrepareError::Memory) => Err(PrepareError::Memory),
    }
}

// An edit of a file, and of another one if it is a move.
fn edit_of(
    alloc: Global,
    random: &mut Pcg32,
    file: FileId,
    other: FileId,
) -> Result<Edit, AllocError>
    ensures { IfOk result (λ edit. (known : Known) → IsSome (id_of known file) → IsSome (id_of known other) → AreKnown known (files_in edit)) }
{
    Ok(match random.next_word() % 7 {
        0 => Edit::Set {
            file,
            line: 1,
            text: line(alloc, random)?,
        },
        1 => Edit::Insert {
            file,
            line: 1,
            text: line(alloc, random)?,
        },
        2 => Edit::Delete { file, line: 1 },
        3 => Edit::New { file },
        4 => Edit::Drop { file },
        5 => Edit::Move {
            from: file,
            to: other,
        },
        _ => Edit::Restore {
            file,
            lines: lines(alloc, random)?,
        },
    })
}

fn right_heights(alloc: Global, world: &World, texts: &PlainTexts) -> Result<bool, AllocError> {
    let heights = plain_heights(alloc, texts, world.depth.saturating_add(1))?;
    Ok((0..world.texts.known()).all(|id| {
        heights.get(id as usize).copied() == Some(world.graph.height(TextId(id)))
    }))
}

fn right_dirt(texts: u32, dirty: &Dirty, expected: &[bool]) -> bool {
    (0..texts).all(|id| expected.get(id as usize).copied() == Some(dirty.has(TextId(id))))
}

fn changed_by(alloc: Global, change: &Change) -> Result<Vec<TextId>, AllocError> {
    let mut changed = Vec::new(alloc);
    changed.push(change.first.0)?;
    if let Some((second, _)) = change.second {
        changed.push(second)?;
    }
    Ok(changed)
}

// Edits the world, and says whether the dirt is right.
fn try_edit(alloc: Global, world: &mut World, change: &Edit) -> Result<bool, PrepareError>
    requires known { AreKnown world.old.texts.known (files_in change.now) }
    requires agrees { Agrees world.old.graph world.old.texts }
    ensures { Agrees world.new.graph world.new.texts }
{
    let before = plain_texts(alloc, &world.texts)?;
    let Some((change, dirty)) = edit(alloc, world, change)? else {
        return Ok(true);
    };
    let after = plain_texts(alloc, &world.texts)?;
    let changed = changed_by(alloc, &change)?;
    Ok(right_dirt(
        world.texts.known(),
        &dirty,
        &plain_dirt(alloc, &before, &after, &changed)?,
    ))
}

fn step(alloc: Global, world: &mut World, random: &mut Pcg32) -> Result<bool, PrepareError>
    requires { Agrees world.old.graph world.old.texts }
    ensures { Agrees world.new.graph world.new.texts }
{
    let (Some(one), Some(other)) = (file(alloc, random)?, file(alloc, random)?) else {
        return Ok(true);
    };
    if world.texts.id(&one).is_none() {
        let text = if random.next_word() % 4 == 0 {
            None
        } else {
            Some(lines(alloc, random)?)
        };
        learn(alloc, world, &one, text)?;
        return Ok(true);
    }
    if world.texts.id(&other).is_none() {
        return Ok(true);
    }
    let change = edit_of(alloc, random, one, other)?;
    try_edit(alloc, world, &change)
}

fn is_right(alloc: Global, seed: u64) -> Result<bool, PrepareError> {
    let mut random = Pcg32::new(seed, 1);
    let depth = 1 + (seed % 5) as u32;
    let mut world = World {
        texts: Texts::new(alloc, 12, 1_000_000),
        graph: Graph::new(alloc, depth),
        depth,
    };
    for _ in 0..25 {
        let right = step(alloc, &mut world, &mut random)?;
        let texts = plain_texts(alloc, &world.texts)?;
        if !right || !right_heights(alloc, &world, &texts)? {
            return Ok(false);
        }
    }
    Ok(true)
}

fn are_right(alloc: Global) -> Result<bool, PrepareError> {
    for seed in 0..200 {
        if !is_right(alloc, seed)? {
            return Ok(false);
        }
    }
    Ok(true)
}

#[test]
fn agrees_with_plain_walks(rt: HostRuntime) {
    assert!(rt; are_right(rt.alloc()) == Ok(true));
}
