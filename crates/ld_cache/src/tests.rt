//! Expansions kept and forgotten, at the lengths that decide about a block.
ghost use Rattle.std.specs.Prelude.{◌≡◌, ◌<◌, IfOk, OnOk, length};

use super::*;
use ld_colour::Colour;
use ld_entry::{Entry, Expansion, Fault, Source, What};
use ld_graph::Dirty;
use ld_names::{List, TextId};
use ld_num::Point;
use std::alloc::{AllocError, Global};

// A text, how many entries it has, and the numbers of kept expansions and of free blocks once it is
// kept, if there are blocks for it. Where the text is kept already, it is forgotten instead.
// There are three texts and three blocks.
static STEPS: [(u32, u32, u32, u32); 10] = [
    (0, 0, 1, 3),
    (1, 256, 2, 2),
    (2, 257, 3, 0),
    (1, 0, 2, 1),
    (1, 257, 2, 1),
    (1, 256, 3, 0),
    (0, 0, 2, 0),
    (0, 1, 2, 0),
    (0, 0, 3, 0),
    (2, 0, 2, 2),
];

// An entry holds points: the prover is told of their type by a use of it.
const NO_POINTS: [Point; 0] = [];

// Entries that tell their text, how many they are, and their place.
fn entries_of(alloc: Global, text: u32, len: u32) -> Result<Vec<Entry>, AllocError>
    ensures { IfOk result (λ entries. length entries.items ≡ len) }
{
    let _ = NO_POINTS;
    let mut entries = Vec::with_capacity(alloc, len as usize)?;
    for place in 0..len {
        entries.push(Entry::Part {
            file: TextId(len),
            colour: Colour::Main,
            source: Source {
                text: TextId(text),
                line: place,
            },
        })?;
    }
    Ok(entries)
}

fn end_of(text: u32) -> Option<Fault> {
    Some(Fault {
        what: What::Missing,
        source: Source {
            text: TextId(text),
            line: 7,
        },
    })
}

fn expansion_of(alloc: Global, text: u32, len: u32) -> Result<Expansion, AllocError>
    ensures { IfOk result (λ expansion. length expansion.entries ≡ len) }
{
    let entries = List::from_vec(entries_of(alloc, text, len)?);
    Ok(Expansion {
        entries,
        line_ends: List::from_slice(alloc, &[0, len])?,
        end: end_of(text),
    })
}

#[tactic(auto, using(crate::proofs::Forgetting::length_without))]
fn forget_text(alloc: Global, cache: &mut Cache, id: TextId) -> Result<(), AllocError>
    ensures { length cache.new.kept ≡ length cache.old.kept }
{
    let mut dirty = Dirty::new(alloc, 3)?;
    if id.0 < 3 {
        dirty.mark(id);
    }
    cache.forget(&dirty);
    Ok(())
}

fn step(alloc: Global, cache: &mut Cache, text: u32, len: u32) -> Result<(), AllocError>
    requires { text < length cache.old.kept }
    ensures { length cache.new.kept ≡ length cache.old.kept }
{
    let id = TextId(text);
    if cache.get(id).is_some() {
        return forget_text(alloc, cache, id);
    }
    let expansion = expansion_of(alloc, text, len)?;
    let _ = cache.keep(id, expansion);
    Ok(())
}

// Whether what is kept of a text, if anything is, is its expansion.
fn is_right(alloc: Global, cache: &Cache, text: u32) -> Result<bool, AllocError> {
    let Some(kept) = cache.get(TextId(text)) else {
        return Ok(true);
    };
    let len = kept.len();
    let entries = entries_of(alloc, text, len)?;
    let mut copied = Vec::new(alloc);
    kept.copy_out(&mut copied)?;
    let mut first = Vec::new(alloc);
    kept.copy_first(len / 2, &mut first)?;
    let last = len == 0 || kept.entry(len - 1) == entries[len as usize - 1];
    Ok(
        last && copied.as_slice() == entries.as_slice()
            && first.as_slice() == &entries[..len as usize / 2]
            && kept.line_end(0).is_none()
            && kept.line_end(1) == Some(0)
            && kept.line_end(2) == Some(len)
            && kept.line_end(3).is_none()
            && kept.end() == end_of(text),
    )
}

fn are_right(alloc: Global, cache: &Cache) -> Result<bool, AllocError> {
    Ok(is_right(alloc, cache, 0)? && is_right(alloc, cache, 1)? && is_right(alloc, cache, 2)?)
}

fn steps(alloc: Global) -> Result<bool, AllocError> {
    let mut cache = Cache::new(alloc, 3, 1023)?;
    for (text, len, kept, free) in &STEPS {
        if *text < 3 {
            step(alloc, &mut cache, *text, *len)?;
        }
        if cache.kept() != *kept || cache.free_blocks() != *free || !are_right(alloc, &cache)? {
            return Ok(false);
        }
    }
    Ok(true)
}

#[test]
fn keeps_within_the_blocks(rt: HostRuntime) {
    assert!(rt; steps(rt.alloc()) == Ok(true));
}

// No texts, and no blocks: an expansion of no entries is kept all the same.
fn smallest(alloc: Global) -> Result<bool, AllocError> {
    let mut none = Cache::new(alloc, 0, 256)?;
    forget_text(alloc, &mut none, TextId(0))?;
    let nothing = none.get(TextId(0)).is_none() && none.kept() == 0 && none.free_blocks() == 1;
    let mut cache = Cache::new(alloc, 2, 255)?;
    step(alloc, &mut cache, 0, 1)?;
    step(alloc, &mut cache, 1, 0)?;
    Ok(nothing && cache.kept() == 1 && cache.free_blocks() == 0 && cache.get(TextId(0)).is_none())
}

#[test]
fn keeps_in_the_smallest(rt: HostRuntime) {
    assert!(rt; smallest(rt.alloc()) == Ok(true));
}

fn crosses_threads<T: Send + Sync>() {}

// What workers are lent crosses threads.
fn types_cross_threads() {
    crosses_threads::<Cache>();
    crosses_threads::<Kept>();
    crosses_threads::<Dirty>();
    crosses_threads::<Expansion>();
}
