// The answer of a root among the known texts.
ghost use Rattle.std.specs.Prelude.{◌≡◌, ◌<◌, IfOk, map};
ghost use Rattle.ld_entry.specs.Answers.{answer_by, source_of};
ghost use Rattle.ld_entry.specs.Laws.{tinted_entry};
ghost use Rattle.ld_entry.specs.NumberedTexts.{known_texts};
ghost use Rattle.ld_engine.specs.Stepping.{answer_with_steps};

use crate::asking::Answer;
use crate::met::NO_POINTS;
use crate::root::{RootExpansion, expand_root, read_lines};
use crate::stepping::step_parts;
use ld_colour::{Colour, under, under_laws};
use ld_entry::{Entry, Fault, Source, What, action_law, cut_laws};
use ld_names::{List, TextId};
use ld_num::Point;
use ld_steps::{step_laws, steps_of};
use ld_texts::Texts;
use std::alloc::{AllocError, Global};

// An entry where a colour is current.
fn tinted(colour: Colour, entry: Entry) -> Entry
    ensures { result ≡ tinted_entry colour entry }
{
    let _: [Point; 0] = NO_POINTS;
    match entry {
        Entry::Drawn {
            kind,
            certified,
            clip,
            winding,
            colour: own,
            source,
            points,
        } => Entry::Drawn {
            kind,
            certified,
            clip,
            winding,
            colour: under(own, colour),
            source,
            points,
        },
        Entry::Part {
            file,
            colour: own,
            source,
        } => Entry::Part {
            file,
            colour: under(own, colour),
            source,
        },
    }
}

fn tint(colour: Colour, entries: &mut Vec<Entry>)
    ensures { entries.new.items ≡ map (tinted_entry colour) entries.old.items }
{
    let _: [Point; 0] = NO_POINTS;
    // Every colour stays under the main colour.
    if colour == Colour::Main {
        under_laws();
        return;
    }
    for index in 0..entries.len() {
        entries[index] = tinted(colour, entries[index]);
    }
}

fn source_of(entry: &Entry) -> Source
    ensures { result ≡ source_of entry.now }
{
    match entry {
        Entry::Drawn { source, .. } | Entry::Part { source, .. } => *source,
    }
}

// All entries, or the fault at the first that is one too many, or the one behind them.
fn answered(most: u32, entries: Vec<Entry>, end: Option<Fault>) -> Result<List<Entry>, Fault>
    ensures { result ≡ answer_by most entries.items end }
{
    if let Some(entry) = entries.get(most as usize) {
        return Err(Fault {
            what: What::TooMany,
            source: source_of(entry),
        });
    }
    match end {
        Some(fault) => Err(fault),
        None => Ok(List::from_vec(entries)),
    }
}

// The answer to a query of a known text, by recursive expansion.
pub(crate) fn answer_of(
    alloc: Global,
    texts: &Texts,
    root: TextId,
    colour: Colour,
    depth: u32,
    most: u32,
) -> Result<Result<Answer, Fault>, AllocError>
    requires { 0 < depth }
    ensures { IfOk result (λ given. given ≡ answer_with_steps (known_texts texts.now.known) depth most root colour) }
{
    cut_laws();
    action_law();
    under_laws();
    step_laws();
    let lines = read_lines(alloc, texts, root)?;
    let marks = steps_of(alloc, lines.as_slice())?;
    let RootExpansion {
        mut entries,
        line_ends,
        end,
    } = expand_root(alloc, texts, root, lines, depth - 1, most)?;
    tint(colour, &mut entries);
    match answered(most, entries, end) {
        Ok(entries) => {
            let steps = step_parts(alloc, marks, line_ends.as_slice())?;
            Ok(Ok(Answer {
                entries,
                steps: List::from_vec(steps),
            }))
        }
        Err(fault) => Ok(Err(fault)),
    }
}
