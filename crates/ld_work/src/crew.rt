// A cache filled in rounds of texts of one height.
ghost use Rattle.std.specs.Prelude.{◌≡◌, ◌≤◌, ◌<◌, ◌+◌, ℕ, OnOk, get_or, length, map, take};
ghost use Rattle.ld_entry.specs.NumberedTexts.{known_texts};
ghost use Rattle.ld_work.specs.Filling.{filled, reads_all};
ghost use Rattle.ld_work.specs.Inside.Agreeing.{height_in};
ghost use Rattle.ld_work.specs.Inside.Lent.{CanFill, basis_at};
ghost use Rattle.ld_work.specs.Inside.Rounds.{AreAt, known_at, readers_of};
ghost use Rattle.ld_work.specs.Inside.Staleness.{AreStale};
ghost use Rattle.ld_work.specs.Readers.{AreOver, KeepTexts, reads_together};

use crate::bounds::Bounds;
use crate::desk::{Desk, keep_all};
use crate::gate::Gate;
use crate::lent::Lent;
use ld_cache::{Cache, graph_law};
use ld_entry::lower_law;
use ld_graph::Graph;
use ld_names::TextId;
use ld_texts::number_law;
use std::alloc::{AllocError, Global};
use std::thread::Threads;

// What all rounds of a filling have in common.
#[derive(Drop)]
pub(crate) struct Crew<'a, R, G> {
    pub(crate) rt: &'a R,
    pub(crate) gate: &'a G,
    pub(crate) alloc: Global,
    pub(crate) graph: &'a Graph,
    pub(crate) bounds: Bounds,
}

impl<R: Threads + Sync, G: Gate + Sync> Crew<'_, R, G> {
    // Expands stale texts in rounds, each by a worker of its own, and keeps in order what fits.
    pub(crate) fn fill(
        &self,
        cache: &mut Cache,
        desks: &mut [Desk<'_>],
        stale: &[TextId],
    ) -> Result<(), AllocError>
        requires some { 0 < length desks.old }
        requires few { length desks.old ≤ 16 }
        requires over { AreOver (known_at desks.old) (readers_of desks.old) }
        requires can { CanFill (known_at desks.old) self.now.graph.now self.now.bounds cache.old }
        requires stale { AreStale (known_at desks.old) self.now.bounds.depth cache.old stale.now }
        ensures texts { KeepTexts (readers_of desks.old) (readers_of desks.new) }
        ensures partly { (count : ℕ) × (cache.new ≡ filled (known_texts (known_at desks.old)) self.now.bounds cache.old (take count stale.now)) }
        ensures exactly { OnOk result (cache.new ≡ filled (known_texts (known_at desks.old)) self.now.bounds cache.old stale.now) }
        ensures reads { OnOk result (reads_together (readers_of desks.new) ≤ reads_together (readers_of desks.old) + reads_all (basis_at (known_at desks.old) self.now.bounds cache.new) stale.now) }
    {
        number_law();
        lower_law();
        graph_law();
        let mut rest = stale;
        while !rest.is_empty() {
            let count = round_size(self.graph, rest, desks.len());
            let (front, more) = rest.split_at(count);
            self.round(cache, &mut desks[..count], front)?;
            rest = more;
        }
        Ok(())
    }

    // A round: each worker expands a text, and then the answers are kept in order.
    fn round(
        &self,
        cache: &mut Cache,
        desks: &mut [Desk<'_>],
        front: &[TextId],
    ) -> Result<(), AllocError>
        requires some { 0 < length desks.old }
        requires few { length desks.old ≤ 16 }
        requires each { length front.now ≡ length desks.old }
        requires over { AreOver (known_at desks.old) (readers_of desks.old) }
        requires can { CanFill (known_at desks.old) self.now.graph.now self.now.bounds cache.old }
        requires stale { AreStale (known_at desks.old) self.now.bounds.depth cache.old front.now }
        ensures texts { KeepTexts (readers_of desks.old) (readers_of desks.new) }
        ensures partly { (count : ℕ) × (cache.new ≡ filled (known_texts (known_at desks.old)) self.now.bounds cache.old (take count front.now)) }
        ensures exactly { OnOk result (cache.new ≡ filled (known_texts (known_at desks.old)) self.now.bounds cache.old front.now) }
        ensures reads { reads_together (readers_of desks.new) ≤ reads_together (readers_of desks.old) + reads_all (basis_at (known_at desks.old) self.now.bounds cache.old) front.now }
    {
        seat_all(desks, front);
        let lent = Lent {
            alloc: self.alloc,
            graph: self.graph,
            cache: &*cache,
            bounds: self.bounds,
        };
        lent.work(self.rt, self.gate, desks);
        keep_all(cache, desks)
    }
}

// Gives each worker its text.
fn seat_all(desks: &mut [Desk<'_>], front: &[TextId])
    requires { length front.now ≡ length desks.old }
    ensures texts { map (λ desk. desk.text) desks.new ≡ front.now }
    ensures readers { readers_of desks.new ≡ readers_of desks.old }
{
    for place in 0..front.len() {
        desks[place].text = front[place];
    }
}

// How many texts a round takes: those of the first one's height, at most one for each worker.
fn round_size(graph: &Graph, rest: &[TextId], workers: usize) -> usize
    requires some { 0 < length rest.now }
    requires workers { 0 < workers }
    ensures some { 0 < result }
    ensures within { result ≤ length rest.now }
    ensures few { result ≤ workers }
    ensures level { AreAt (height_in graph.now) (height_in graph.now (get_or rest.now 0 (record { 0 = 0 }))) (take result rest.now) }
{
    let level = graph.height(rest[0]);
    let mut count = 1;
    while count < workers && count < rest.len() && graph.height(rest[count]) == level {
        count += 1;
    }
    count
}
