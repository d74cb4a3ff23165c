// A cache filled for a root.
ghost use Rattle.std.specs.Prelude.{◌≡◌, ◌≤◌, ◌<◌, ◌+◌, OnOk, [], length, reverse};
ghost use Rattle.std.specs.Vec.{vec_capacity};
ghost use Rattle.ld_entry.specs.NumberedTexts.{known_texts};
ghost use Rattle.ld_graph.specs.Agreeing.{items_of_known};
ghost use Rattle.ld_work.specs.Bounds.{AreBounds};
ghost use Rattle.ld_work.specs.Filling.{filled_for, reads_all, stale};
ghost use Rattle.ld_work.specs.Inside.Rounds.{readers_of};
ghost use Rattle.ld_work.specs.Readers.{AreOver, IsLearntRoot, KeepTexts, known_by, reads_together};
ghost use Rattle.ld_work.specs.Right.{AreKept};

use crate::bounds::Bounds;
use crate::crew::Crew;
use crate::desk::Desk;
use crate::gate::Gate;
use crate::lent::Lent;
use ld_cache::Cache;
use ld_entry::reached_law;
use ld_graph::{Graph, Reader};
use ld_names::TextId;
use ld_texts::number_law;
use std::alloc::{AllocError, Global};
use std::thread::Threads;

/// Expands each text that a root reaches, of which nothing is kept and whose references go no deeper
/// than a way may be long, and keeps the expansion where its blocks are free: the lowest texts first,
/// those of one height in the order of their files. There are as many workers as readers; each expands
/// a text of its own in a round, which it begins by passing the gate.
///
/// # Errors
///
/// Memory; what is kept then is still right.
pub fn fill<R: Threads + Sync, G: Gate + Sync>(
    rt: &R,
    alloc: Global,
    readers: &mut Vec<Reader<'_>>,
    graph: &Graph,
    cache: &mut Cache,
    root: TextId,
    bounds: Bounds,
    gate: &G,
) -> Result<(), AllocError>
    requires some { 0 < length readers.old.items }
    requires few { length readers.old.items ≤ 16 }
    requires over { AreOver (known_by readers.old.items) readers.old.items }
    requires bounds { AreBounds bounds }
    requires graph { graph.now.items ≡ items_of_known (known_by readers.old.items) }
    requires depth { graph.now.depth ≡ bounds.depth }
    requires learnt { IsLearntRoot (known_by readers.old.items) root }
    requires room { length (known_by readers.old.items) ≤ length cache.old.kept }
    requires kept { AreKept (known_by readers.old.items) bounds cache.old }
    ensures texts { KeepTexts readers.old.items readers.new.items }
    ensures room { length cache.new.kept ≡ length cache.old.kept }
    ensures blocks { cache.new.blocks ≡ cache.old.blocks }
    ensures right { AreKept (known_by readers.old.items) bounds cache.new }
    ensures exactly { OnOk result (cache.new ≡ filled_for (known_by readers.old.items) bounds cache.old root) }
    ensures reads { OnOk result (reads_together readers.new.items ≤ reads_together readers.old.items + reads_all (record { texts = known_texts (known_by readers.old.items); bounds = bounds; cache = cache.new }) (stale (known_by readers.old.items) bounds.depth cache.old root)) }
{
    reached_law();
    number_law();
    let lent = Lent {
        alloc,
        graph,
        cache: &*cache,
        bounds,
    };
    let first = &readers[0];
    let _ = first.known();
    let stale = lent.stale(first, root)?;
    let mut desks = Vec::with_capacity(alloc, readers.len())?;
    sit_down(readers, &mut desks);
    let crew = Crew {
        rt,
        gate,
        alloc,
        graph,
        bounds,
    };
    let filled = crew.fill(cache, &mut desks, &stale);
    stand_up(&mut desks, readers);
    filled
}

// Each reader goes to a desk, the last one first.
fn sit_down<'a>(readers: &mut Vec<Reader<'a>>, desks: &mut Vec<Desk<'a>>)
    requires room { length readers.old.items ≤ vec_capacity desks.old }
    requires free { desks.old.items ≡ [] }
    ensures readers { readers.new.items ≡ [] }
    ensures room { length readers.old.items ≤ vec_capacity readers.new }
    ensures desks { reverse (readers_of desks.new.items) ≡ readers.old.items }
{
    while let Some(reader) = readers.pop() {
        desks.push_reserved(Desk {
            reader,
            text: TextId(0),
            answer: None,
        });
    }
}

// Each reader leaves its desk, the last one first.
fn stand_up<'a>(desks: &mut Vec<Desk<'a>>, readers: &mut Vec<Reader<'a>>)
    requires room { length desks.old.items ≤ vec_capacity readers.old }
    requires free { readers.old.items ≡ [] }
    ensures readers { reverse readers.new.items ≡ readers_of desks.old.items }
{
    while let Some(desk) = desks.pop() {
        let Desk {
            reader,
            text: _,
            answer,
        } = desk;
        drop(answer);
        readers.push_reserved(reader);
    }
}
