// The expansion of a text by itself.
ghost use Rattle.std.specs.Prelude.{◌≡◌, ◌≤◌, ◌<◌, ◌+◌, ◌-◌, ◌++◌, ◌^◌, IfOk, OnOk, [], length, suc, replicate};
ghost use Rattle.ld_entry.specs.Expansion.{neutral_expansion};
ghost use Rattle.ld_entry.specs.NumberedTexts.{known_texts};
ghost use Rattle.ld_graph.specs.Agreeing.{Agrees};
ghost use Rattle.ld_work.specs.Bounds.{AreBounds};
ghost use Rattle.ld_work.specs.Fitting.{FitsIn};
ghost use Rattle.ld_work.specs.Inside.Agreeing.{AgreesWith};
ghost use Rattle.ld_work.specs.Inside.Working.{IsReady, ReadsAtMost, basis_of, texts_of};
ghost use Rattle.ld_work.specs.Reads.{reads};
ghost use Rattle.ld_work.specs.Right.{AreRight};

use crate::bounds::Bounds;
use crate::cursor::Cursor;
use crate::expanding::{Expander, Work};
use crate::line::NO_LINES;
use crate::parsed::ParsedTexts;
use crate::seen::line_count;
use ld_cache::{Cache, graph_law};
use ld_entry::{Expansion, Fault, carry_laws, cut_laws, found_law, walk_laws};
use ld_graph::{Graph, Reader};
use ld_names::{List as Items, TextId};
use ld_texts::number_law;
use smallvec::SmallVec;
use std::alloc::{AllocError, Global};

// Appends the number until there are so many.
fn fill_up(count: u32, lines: usize, ends: &mut Vec<u32>) -> Result<(), AllocError>
    requires { length ends.old.items ≤ lines }
    ensures { OnOk result (ends.new.items ≡ ends.old.items ++ replicate (lines - length ends.old.items) count) }
{
    while ends.len() < lines {
        ends.push(count)?;
    }
    Ok(())
}

fn expansion(work: Work, line_ends: Vec<u32>, end: Option<Fault>) -> Expansion
    ensures { result ≡ record { entries = work.entries.items; line_ends = line_ends.items; end = end } }
{
    let Work {
        way,
        entries,
        parsed,
    } = work;
    drop(way);
    drop(parsed);
    Expansion {
        entries: Items::from_vec(entries),
        line_ends: Items::from_vec(line_ends),
        end,
    }
}

// A graph that agrees with texts says of them what their lines do.
fn graph_agrees(reader: &Reader<'_>, graph: &Graph, depth: u32)
    requires graph { Agrees graph.now reader.now.texts }
    requires depth { graph.now.depth ≡ depth }
    ensures { AgreesWith graph.now depth reader.now.texts }
{
    let _ = reader.known();
    number_law();
    found_law();
    graph_law();
}

impl Expander<'_> {
    // What the text gives by itself. Behind its end the ends of lines stay.
    fn expand(&self, reader: &mut Reader<'_>, text: TextId) -> Result<Expansion, AllocError>
        requires ready { IsReady self.now reader.old.texts }
        requires depth { 1 ≤ self.now.bounds.depth }
        requires small { suc self.now.most < 2 ^ 32 }
        ensures exactly { IfOk result (λ given. given ≡ neutral_expansion (texts_of reader.old) self.now.bounds.depth self.now.most [] text) }
        ensures reads { ReadsAtMost reader.old reader.new (reads (basis_of self.now reader.old) [] text) }
    {
        let _ = NO_LINES;
        cut_laws();
        walk_laws();
        carry_laws();
        let lines = line_count(reader, text) as usize;
        let mut ends = Vec::with_capacity(self.alloc, lines)?;
        let mut work = Work {
            way: SmallVec::new(self.alloc),
            entries: Vec::new(self.alloc),
            parsed: ParsedTexts::new(self.alloc),
        };
        let mut cursor = Cursor::new(reader, text);
        while let Some(line) = cursor.read(self.alloc, reader)? {
            let end = self.pass_line(reader, &mut work, text, line)?;
            let count = work.entries.len();
            ends.push(count as u32)?;
            if end.is_some() || count > self.most as usize {
                fill_up(count as u32, lines, &mut ends)?;
                return Ok(expansion(work, ends, end));
            }
        }
        Ok(expansion(work, ends, None))
    }
}

/// The expansion of a text by itself: its first entries, up to one too many, how many of them stand up
/// to and with each line, and the fault that ends it. Of each low text that it comes to, what is kept
/// is taken, and no line is read.
pub fn expand_text(
    alloc: Global,
    reader: &mut Reader<'_>,
    graph: &Graph,
    cache: &Cache,
    id: TextId,
    bounds: Bounds,
) -> Result<Expansion, AllocError>
    requires bounds { AreBounds bounds }
    requires graph { Agrees graph.now reader.old.texts }
    requires depth { graph.now.depth ≡ bounds.depth }
    requires kept { AreRight (known_texts reader.old.texts.known) bounds cache.now }
    ensures exactly { IfOk result (λ expansion. expansion ≡ neutral_expansion (known_texts reader.old.texts.known) bounds.depth bounds.entries [] id) }
    ensures texts { reader.new.texts ≡ reader.old.texts }
    ensures reads { reader.new.reads ≤ reader.old.reads + reads (record { texts = known_texts reader.old.texts.known; bounds = bounds; cache = cache.now }) [] id }
{
    graph_agrees(reader, graph, bounds.depth);
    let expander = Expander {
        alloc,
        graph,
        cache,
        bounds,
        most: bounds.entries,
    };
    expander.expand(reader, id)
}

/// Bounds, and how many entries there is room for.
#[derive(Clone, Copy, Debug, PartialEq, Eq)]
pub struct Room {
    pub bounds: Bounds,
    pub entries: u32,
}

/// The expansion of a text by itself, where it has no more entries than there is room for. It is given
/// up as soon as one more stands.
pub fn expand_within(
    alloc: Global,
    reader: &mut Reader<'_>,
    graph: &Graph,
    cache: &Cache,
    id: TextId,
    room: Room,
) -> Result<Option<Expansion>, AllocError>
    requires bounds { AreBounds room.bounds }
    requires graph { Agrees graph.now reader.old.texts }
    requires depth { graph.now.depth ≡ room.bounds.depth }
    requires kept { AreRight (known_texts reader.old.texts.known) room.bounds cache.now }
    ensures fits { IfOk result (FitsIn room.entries (neutral_expansion (known_texts reader.old.texts.known) room.bounds.depth room.bounds.entries [] id)) }
    ensures texts { reader.new.texts ≡ reader.old.texts }
    ensures reads { reader.new.reads ≤ reader.old.reads + reads (record { texts = known_texts reader.old.texts.known; bounds = room.bounds; cache = cache.now }) [] id }
{
    graph_agrees(reader, graph, room.bounds.depth);
    let expander = Expander {
        alloc,
        graph,
        cache,
        bounds: room.bounds,
        most: room.bounds.entries.min(room.entries),
    };
    let expansion = expander.expand(reader, id)?;
    if expansion.entries.as_slice().len() > room.entries as usize {
        return Ok(None);
    }
    Ok(Some(expansion))
}
