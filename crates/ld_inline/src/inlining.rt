ghost use Rattle.std.specs.Prelude.{◌≡◌, ◌≤◌, ◌&&◌, ◌++◌, ◌∷◌, [], All, None, length, true, OnOk, IfOk};
ghost use Rattle.std.specs.List.{fold};
ghost use Rattle.ld_colour.specs.Table.{counting};
ghost use Rattle.ld_steps.specs.Laws.{AreSteps};
ghost use Rattle.ld_steps.specs.Parts.{entries_in};
ghost use Rattle.ld_inline.specs.Meaning.{MeansFlat};
ghost use Rattle.ld_inline.specs.Text.{Inlines, clip_lines, entries_lines, entry_lines, first_missing, inlined_text, lines_text, missing_in, missing_colour, stands_behind, step_rotation, stepped_words, steps_lines, written_text};
ghost use Rattle.ld_inline.specs.Inside.Shown.{AreShownSteps, IsShown, IsShownStep};

use crate::ranges::{colour_range, points_range};
use crate::rotation::append_step;
use crate::words::append_drawn;
use ld_colour::{Colour, Table, under_laws};
use ld_entry::Entry;
use ld_line::{colour_law, draw_law, lines_law, step_law};
use ld_num::Point;
use ld_steps::{StepPart, Turn};
use std::alloc::{AllocError, Global};

/// Why no text is answered.
#[derive(Clone, Copy, Debug, PartialEq, Eq)]
pub enum InlineError {
    /// The code of the first drawn entry in the edge colour of a code that has no value.
    NoColour(u32),
    Memory,
}

// Named where entries are moved: the prover looks for the types inside them among those named.
pub(crate) const NO_POINTS: [Point; 0] = [];

/// One text without references, which has the drawn entries and the steps of an answer (File Format
/// 1.0.2, "Line Type 2" to "Line Type 5" and "STEP"). It states where clipping changes, turns
/// clockwise faces round, and writes edge colours by their red, green and blue.
///
/// # Errors
///
/// `NoColour` where an edge colour has no value in the table, and want of memory, which is told only
/// where none lacks.
#[tactic(auto, unfolding(crate::specs::Text::inlined_text))]
pub fn inline(
    alloc: Global,
    entries: &[Entry],
    steps: &[StepPart],
    table: &Table,
) -> Result<Vec<u8>, InlineError>
    requires { AreSteps (length entries.now) steps.now }
    ensures text { Inlines (inlined_text entries.now steps.now (counting table.now)) result }
    ensures means { IfOk result (λ text. MeansFlat entries.now steps.now (counting table.now) text.items) }
{
    lines_law();
    colour_law();
    draw_law();
    step_law();
    under_laws();
    table.rgb_law();
    if let Some(code) = missing(entries, table) {
        return Err(InlineError::NoColour(code));
    }
    match write(alloc, entries, steps, table) {
        Ok(text) => Ok(text),
        Err(AllocError) => Err(InlineError::Memory),
    }
}

// The code of the first edge colour that has no value.
fn missing(entries: &[Entry], table: &Table) -> Option<u32>
    ensures code { result ≡ first_missing (counting table.now) entries.now }
    ensures shown { result ≡ None → All IsShown entries.now }
{
    let mut rest = entries;
    while let Some((entry, more)) = rest.split_first() {
        if let Some(code) = missing_in(entry, table) {
            return Some(code);
        }
        rest = more;
    }
    None
}

fn missing_in(entry: &Entry, table: &Table) -> Option<u32>
    ensures code { result ≡ missing_in (counting table.now) entry.now }
    ensures shown { IsShown entry.now }
{
    let _: [Point; 0] = NO_POINTS;
    let entry = *entry;
    match entry {
        Entry::Drawn { colour, points, .. } => {
            colour_range(colour);
            points_range(points);
            missing_colour(colour, table)
        }
        Entry::Part { .. } => None,
    }
}

fn missing_colour(colour: Colour, table: &Table) -> Option<u32>
    ensures { result ≡ missing_colour (counting table.now) colour }
{
    let Colour::EdgeOf(code) = colour else {
        return None;
    };
    match table.rgb(colour) {
        None => Some(code),
        Some(_) => None,
    }
}

// The bytes that a text has mostly: of its first line, of an entry's line and of a step line.
const FIRST_BYTES: usize = 19;

const ENTRY_BYTES: usize = 48;

const STEP_BYTES: usize = 8;

#[tactic(auto, unfolding(crate::specs::Text::written_text))]
fn write(
    alloc: Global,
    entries: &[Entry],
    steps: &[StepPart],
    table: &Table,
) -> Result<Vec<u8>, AllocError>
    requires { AreSteps (length entries.now) steps.now }
    ensures text { IfOk result (λ text. text.items ≡ written_text (counting table.now) entries.now steps.now) }
    ensures shown { OnOk result (AreShownSteps [] steps.now) }
{
    let room = entries
        .len()
        .saturating_mul(ENTRY_BYTES)
        .saturating_add(steps.len().saturating_mul(STEP_BYTES))
        .saturating_add(FIRST_BYTES);
    let mut text = Vec::with_capacity(alloc, room)?;
    text.extend_from_slice(b"0 BFC CERTIFY CCW\r\n")?;
    append_steps(entries, steps, table, &mut text)?;
    Ok(text)
}

fn append_steps(
    entries: &[Entry],
    steps: &[StepPart],
    table: &Table,
    into: &mut Vec<u8>,
) -> Result<(), AllocError>
    requires { All (λ step. (step.first ≤ step.end) × (step.end ≤ length entries.now)) steps.now }
    ensures text { OnOk result (into.new.items ≡ into.old.items ++ lines_text (steps_lines (counting table.now) entries.now [] true steps.now)) }
    ensures shown { OnOk result (AreShownSteps [] steps.now) }
{
    let mut rest = steps;
    let mut before: &[Turn] = &[];
    let mut clip = true;
    while let Some((step, more)) = rest.split_first() {
        clip = append_part(entries, step, before, clip, table, into)?;
        before = step.view.as_slice();
        rest = more;
    }
    Ok(())
}

// The lines of a step's own entries, and its step line behind this view; whether clipping stands
// behind them.
fn append_part(
    entries: &[Entry],
    step: &StepPart,
    before: &[Turn],
    clip: bool,
    table: &Table,
    into: &mut Vec<u8>,
) -> Result<bool, AllocError>
    requires { (step.now.first ≤ step.now.end) × (step.now.end ≤ length entries.now) }
    ensures text { OnOk result (into.new.items ≡ into.old.items ++ lines_text (entries_lines (counting table.now) clip (entries_in entries.now step.now)) ++ lines_text (stepped_words (step_rotation before.now step.now.view) ∷ [])) }
    ensures stands { IfOk result (λ stands. stands ≡ fold stands_behind clip (entries_in entries.now step.now)) }
    ensures shown { OnOk result (IsShownStep before.now step.now.view) }
{
    let own = &entries[step.first as usize..step.end as usize];
    let stands = append_entries(clip, own, table, into)?;
    append_step(before, step.view.as_slice(), into)?;
    Ok(stands)
}

// The lines of entries; whether clipping stands behind them.
#[tactic(auto, using(crate::proofs::Texts::lines_text_append))]
fn append_entries(
    clip: bool,
    entries: &[Entry],
    table: &Table,
    into: &mut Vec<u8>,
) -> Result<bool, AllocError>
    ensures text { OnOk result (into.new.items ≡ into.old.items ++ lines_text (entries_lines (counting table.now) clip entries.now)) }
    ensures stands { IfOk result (λ stands. stands ≡ fold stands_behind clip entries.now) }
{
    let mut stands = clip;
    let mut rest = entries;
    while let Some((entry, more)) = rest.split_first() {
        stands = append_entry(stands, entry, table, into)?;
        rest = more;
    }
    Ok(stands)
}

#[tactic(auto, using(crate::proofs::Texts::lines_text_append))]
fn append_entry(
    stands: bool,
    entry: &Entry,
    table: &Table,
    into: &mut Vec<u8>,
) -> Result<bool, AllocError>
    ensures text { OnOk result (into.new.items ≡ into.old.items ++ lines_text (entry_lines (counting table.now) stands entry.now)) }
    ensures stands { IfOk result (λ behind. behind ≡ stands_behind stands entry.now) }
{
    let _: [Point; 0] = NO_POINTS;
    let entry = *entry;
    match entry {
        Entry::Drawn {
            kind,
            certified,
            clip,
            winding,
            colour,
            points,
            ..
        } => {
            let wanted = certified && clip;
            append_clip(stands, wanted, into)?;
            append_drawn(kind, winding, colour, points, table, into)?;
            Ok(wanted)
        }
        Entry::Part { .. } => Ok(stands),
    }
}

// The statement where what is wanted doesn't stand.
fn append_clip(stands: bool, wanted: bool, into: &mut Vec<u8>) -> Result<(), AllocError>
    ensures { OnOk result (into.new.items ≡ into.old.items ++ lines_text (clip_lines stands wanted)) }
{
    match (stands, wanted) {
        (true, false) => into.extend_from_slice(b"0 BFC NOCLIP\r\n"),
        (false, true) => into.extend_from_slice(b"0 BFC CLIP\r\n"),
        _ => Ok(()),
    }
}
