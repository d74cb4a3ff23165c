//! Lines counted by the definition, a model expanded, and that what workers hand back crosses threads.
ghost use Rattle.std.specs.Prelude.{◌≡◌, None};
ghost use Rattle.ld_graph.specs.Agreeing.{Agrees};
ghost use Rattle.ld_texts.specs.Known.{id_of};
ghost use Rattle.ld_work.specs.ReadsRows.{EachUseIsRead, LowTextsAreGiven, NoneBehindAFault, NoneBehindAnEntryTooMany, ReferenceBackIsRead};

use crate::{Bounds, Room, expand_text};
use ld_cache::Cache;
use ld_colour::Colour;
use ld_entry::{Entry, Expansion, Source};
use ld_graph::{Graph, Reader};
use ld_names::{FileId, Folder, Lines, List, NameError, TextId, normal};
use ld_texts::Texts;
use std::alloc::{AllocError, Global};

fn crosses_threads<T: Send + Sync>() {}

fn types_cross_threads() {
    crosses_threads::<Bounds>();
    crosses_threads::<Room>();
    crosses_threads::<Expansion>();
}

fn reads_by_definition()
    ensures each_use_is_read { EachUseIsRead }
    ensures low_texts_are_given { LowTextsAreGiven }
    ensures none_behind_a_fault { NoneBehindAFault }
    ensures none_behind_an_entry_too_many { NoneBehindAnEntryTooMany }
    ensures reference_back_is_read { ReferenceBackIsRead }
{}

// A model of two texts, in colour 4 and in the edge colour.
static ROOT: [&[u8]; 2] = [b"1 4 0 0 0 1 0 0 0 1 0 0 0 1 b.ldr", b"2 24 0 0 0 1 0 0"];

static LOW: [&[u8]; 1] = [b"2 16 0 0 0 1 0 0"];

fn lines_of(alloc: Global, texts: &[&[u8]]) -> Result<Lines, AllocError> {
    let mut lines = List::new(alloc);
    for text in texts {
        lines.push(List::from_slice(alloc, text)?)?;
    }
    Ok(lines)
}

fn file(alloc: Global, name: &[u8]) -> Result<FileId, NameError> {
    Ok(FileId {
        folder: Folder::Model(1),
        name: normal(alloc, name)?,
    })
}

fn learn(
    alloc: Global,
    texts: &mut Texts,
    graph: &mut Graph,
    file: &FileId,
    lines: Lines,
) -> Result<(), NameError>
    requires agrees { Agrees graph.old texts.old }
    ensures agrees { Agrees graph.new texts.new }
    ensures depth { graph.new.depth ≡ graph.old.depth }
{
    if texts.id(file).is_some() {
        return Ok(());
    }
    match texts.prepare_file(file, Some(lines)) {
        Ok(ready) => {
            let change = graph.prepare(alloc, texts, &ready)?;
            texts.commit(ready);
            graph.commit(texts, change);
            Ok(())
        }
        Err(_) => Err(NameError::Memory),
    }
}

// What the model expands to where nothing is kept, and how many lines are read.
fn expanded(alloc: Global, texts: &Texts, graph: &Graph) -> Result<(Expansion, u64), AllocError>
    requires agrees { Agrees graph.now texts.now }
    requires depth { graph.now.depth ≡ 32 }
{
    let cache = Cache::new(alloc, 2, 0)?;
    let mut reader = Reader::new(texts);
    let bounds = Bounds {
        entries: 9,
        depth: 32,
    };
    let expansion = expand_text(alloc, &mut reader, graph, &cache, TextId(0), bounds)?;
    Ok((expansion, reader.reads()))
}

// A drawn line of this colour at this line of a text.
fn is_drawn(entry: Option<&Entry>, colour: Colour, text: u32, line: u32) -> bool {
    let source = Source {
        text: TextId(text),
        line,
    };
    match entry {
        Some(
            Entry::Drawn {
                colour: its_colour,
                source: its_source,
                ..
            },
        ) => *its_colour == colour && *its_source == source,
        _ => false,
    }
}

fn model_is_expanded(alloc: Global) -> Result<bool, NameError> {
    let mut texts = Texts::new(alloc, 2, 1000);
    let mut graph = Graph::new(alloc, 32);
    learn(
        alloc,
        &mut texts,
        &mut graph,
        &file(alloc, b"m.ldr")?,
        lines_of(alloc, &ROOT)?,
    )?;
    learn(
        alloc,
        &mut texts,
        &mut graph,
        &file(alloc, b"b.ldr")?,
        lines_of(alloc, &LOW)?,
    )?;
    let (expansion, reads) = expanded(alloc, &texts, &graph)?;
    let entries = expansion.entries.as_slice();
    Ok(
        entries.len() == 2
            && is_drawn(entries.get(0), Colour::Code(4), 1, 1)
            && is_drawn(entries.get(1), Colour::Edge, 0, 2)
            && expansion.line_ends.as_slice() == [1, 2].as_slice()
            && expansion.end.is_none()
            && reads == 3,
    )
}

#[test]
fn expands_a_model(rt: HostRuntime) {
    assert!(rt; model_is_expanded(rt.alloc()) == Ok(true));
}
