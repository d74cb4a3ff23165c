// Entries where a colour is current.
ghost use Rattle.std.specs.Prelude.{◌≡◌, IfOk, map};
ghost use Rattle.ld_entry.specs.Laws.{tinted_entry};

use crate::line::NO_POINTS;
use ld_colour::{Colour, under};
use ld_entry::Entry;
use ld_num::Point;
use rayon::prelude::*;
use std::alloc::{AllocError, Global};
use std::thread::Threads;

fn tinted(colour: Colour, entry: Entry) -> Entry
    ensures { result ≡ tinted_entry colour entry }
{
    let _: [Point; 0] = NO_POINTS;
    match entry {
        Entry::Drawn {
            kind,
            certified,
            clip,
            winding,
            colour: own,
            source,
            points,
        } => Entry::Drawn {
            kind,
            certified,
            clip,
            winding,
            colour: under(own, colour),
            source,
            points,
        },
        Entry::Part {
            file,
            colour: own,
            source,
        } => Entry::Part {
            file,
            colour: under(own, colour),
            source,
        },
    }
}

/// The entries where a colour is current, in order, by as many threads as there are processors: main
/// and edge colours are found under it (File Format 1.0.2, "Colours").
pub fn tint(
    rt: &(impl Threads + Sync),
    alloc: Global,
    entries: &[Entry],
    colour: Colour,
) -> Result<Vec<Entry>, AllocError>
    ensures { IfOk result (λ tinted. tinted.items ≡ map (tinted_entry colour) entries.now) }
{
    let _: [Point; 0] = NO_POINTS;
    entries
        .par_iter()
        .map(
            move |entry: &Entry| -> Entry
                ensures { result ≡ tinted_entry colour entry.now }
            { tinted(colour, *entry) },
        )
        .collect(rt, alloc)
}
