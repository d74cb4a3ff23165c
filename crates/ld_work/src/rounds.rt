// A round: each worker expands the text of its desk.
ghost use Rattle.std.specs.Prelude.{◌≡◌, ◌≤◌, ◌<◌, ℕ, All, length, slice_index_or};
ghost use Rattle.ld_work.specs.Inside.Lent.{MayWork};
ghost use Rattle.ld_work.specs.Inside.Rounds.{IsDone};
ghost use Rattle.ld_work.specs.declared.desk.Desk.{Desk};

use crate::desk::Desk;
use crate::gate::Gate;
use crate::lent::Lent;
use crate::text::{Room, expand_within};
use ld_graph::Reader;
use ld_names::TextId;
use std::thread;
use std::thread::Threads;

// From so many lines and kept entries on, a round is worth threads.
const WORTH_THREADS: u64 = 2000;

impl Lent<'_> {
    // Each worker expands the text of its desk.
    pub(crate) fn work<R: Threads + Sync, G: Gate + Sync>(
        &self,
        rt: &R,
        gate: &G,
        desks: &mut [Desk<'_>],
    )
        requires some { 0 < length desks.old }
        requires few { length desks.old ≤ 16 }
        requires may { All (λ desk. MayWork self.now desk.reader.texts.known) desks.old }
        ensures long { length desks.new ≡ length desks.old }
        ensures each { (i : ℕ) (d : Desk) → i < length desks.old → IsDone self.now (slice_index_or desks.old i d) (slice_index_or desks.new i d) }
    {
        if desks.len() > 1 && (gate.wants_threads() || self.are_worth_threads(desks)) {
            self.work_apart(rt, gate, desks)
        } else {
            self.work_in_turn(gate, desks)
        }
    }

    // Each worker on a thread of its own.
    fn work_apart<R: Threads + Sync, G: Gate + Sync>(
        &self,
        rt: &R,
        gate: &G,
        desks: &mut [Desk<'_>],
    )
        requires some { 0 < length desks.old }
        requires few { length desks.old ≤ 16 }
        requires may { All (λ desk. MayWork self.now desk.reader.texts.known) desks.old }
        ensures long { length desks.new ≡ length desks.old }
        ensures each { (i : ℕ) (d : Desk) → i < length desks.old → IsDone self.now (slice_index_or desks.old i d) (slice_index_or desks.new i d) }
    {
        let threads = desks.len();
        let lent = *self;
        thread::for_each_mut(
            rt,
            desks,
            threads,
            &|index, desk: &mut Desk<'_>| { lent.work_at(gate, index, desk) },
        );
    }

    // One worker after another.
    fn work_in_turn<G: Gate>(&self, gate: &G, desks: &mut [Desk<'_>])
        requires few { length desks.old ≤ 16 }
        requires may { All (λ desk. MayWork self.now desk.reader.texts.known) desks.old }
        ensures long { length desks.new ≡ length desks.old }
        ensures each { (i : ℕ) (d : Desk) → i < length desks.old → IsDone self.now (slice_index_or desks.old i d) (slice_index_or desks.new i d) }
    {
        for index in 0..desks.len() {
            self.work_at(gate, index, &mut desks[index]);
        }
    }

    // The worker of a desk passes the gate, and expands its text.
    fn work_at<G: Gate>(&self, gate: &G, index: usize, desk: &mut Desk<'_>)
        requires few { index < 16 }
        requires may { MayWork self.now desk.old.reader.texts.known }
        ensures { IsDone self.now desk.old desk.new }
    {
        gate.pass(index as u32);
        let room = Room {
            bounds: self.bounds,
            entries: self.cache.free_blocks().saturating_mul(256),
        };
        let answer = expand_within(
            self.alloc,
            &mut desk.reader,
            self.graph,
            self.cache,
            desk.text,
            room,
        );
        desk.answer = Some(answer);
    }

    // Whether the texts have so much to do that threads are worth their start.
    fn are_worth_threads(&self, desks: &[Desk<'_>]) -> bool {
        let mut work = 0;
        for desk in desks {
            work = self.work_with(work, desk);
        }
        work >= WORTH_THREADS
    }

    // The lines of a text, and the kept entries that it refers to, added to those before.
    fn work_with(&self, before: u64, desk: &Desk<'_>) -> u64 {
        let lines = desk.reader.len(desk.text).unwrap_or(0);
        let mut work = before.saturating_add(u64::from(lines));
        for index in 0..lines {
            if work >= WORTH_THREADS {
                return work;
            }
            work = work.saturating_add(self.entries_kept(&desk.reader, desk.text, index));
        }
        work
    }

    // How many entries are kept of what a text's reference finds.
    fn entries_kept(&self, reader: &Reader<'_>, text: TextId, index: u32) -> u64 {
        let Some(name) = self.graph.name(text, index) else {
            return 0;
        };
        let Some(found) = crate::seen::found(reader, text, name) else {
            return 0;
        };
        match self.cache.get(found) {
            Some(kept) => u64::from(kept.len()),
            None => 0,
        }
    }
}
