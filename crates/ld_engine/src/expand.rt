// Recursive expansion of the known texts: each text's entries are made below nothing, and carried
// through the reference that enters it.
ghost use Rattle.std.specs.Prelude.{◌≡◌, ◌≤◌, ◌+◌, ◌==◌, ◌∷◌, [], ◌++◌, ℕ, IfOk, List, None, OnOk, length};
ghost use Rattle.std.specs.List.{list_any};
ghost use Rattle.ld_names.specs.declared.file.TextId.{TextId};
ghost use Rattle.ld_colour.specs.Colour.{colour_of as colour_of_word};
ghost use Rattle.ld_entry.specs.Carrying.{above_of};
ghost use Rattle.ld_entry.specs.NumberedTexts.{known_texts};
ghost use Rattle.ld_entry.specs.Outcomes.{all, found_outcomes, line_outcomes, outer_of, part_outcomes};
ghost use Rattle.ld_engine.specs.Gathering.{Extends, Gathers, KeepsWithin, alone, enter_with};
ghost use Rattle.ld_engine.specs.Inside.Meeting.{AreMets, met_outcomes};

use crate::carrying::carry_from;
use crate::met::{Met, NO_POINTS, Reference, drawn, meet};
use crate::moving::target;
use crate::reading::Reading;
use crate::seen::is_part;
use ld_bfc::{State, below_of};
use ld_colour::{colour_of, under_laws};
use ld_entry::{Entry, Fault, Outer, Source, What, action_law, cut_laws};
use ld_line::Line;
use ld_names::TextId;
use ld_num::{Point, mirrored};
use ld_texts::Texts;
use smallvec::SmallVec;
use std::alloc::{AllocError, Global};

fn fault(what: What, source: Source) -> Option<Fault>
    ensures { result ≡ Some (record { what = what; source = source }) }
{
    Some(Fault { what, source })
}

// Whether the file is on the way or is the text behind it.
pub(crate) fn on_way(way: &[TextId], text: TextId, file: TextId) -> bool
    ensures { result ≡ list_any (λ on. on.0 == file.0) (way.now ++ text ∷ []) }
{
    let mut rest = way;
    while let Some((on, more)) = rest.split_first() {
        if on.0 == file.0 {
            return true;
        }
        rest = more;
    }
    text.0 == file.0
}

// What a reference passes down.
fn passed_down(reference: &Reference) -> Outer
    ensures passed { above_of result ≡ above_of (outer_of reference.now.state reference.now.source reference.now.colour reference.now.placement) }
    ensures colour { result.colour ≡ colour_of_word reference.now.colour }
    ensures source { result.source ≡ reference.now.source }
{
    Outer {
        placement: reference.placement,
        colour: colour_of(reference.colour),
        below: below_of(reference.state, mirrored(&reference.placement)),
        source: reference.source,
    }
}

// A part text is an entry of its own where the text that refers to it is none. The entry is of the
// text at which its moves end.
fn push_part(
    alloc: Global,
    texts: &Texts,
    outer: &Outer,
    file: TextId,
    entries: &mut Vec<Entry>,
) -> Result<(), AllocError>
    ensures extends { OnOk result (Extends entries.old.items entries.new.items) }
    ensures within { OnOk result (length entries.new.items ≤ length entries.old.items + 1) }
    ensures gathers { OnOk result ((way : List TextId) (most word : ℕ) → outer.now.colour ≡ colour_of_word word →
        Gathers most entries.old.items entries.new.items None
        (part_outcomes (alone (known_texts texts.now.known) way outer.now.source.text) outer.now.source word file)) }
{
    let _: [Point; 0] = NO_POINTS;
    if !is_part(texts, outer.source.text) && is_part(texts, file) {
        entries.push(Entry::Part {
            file: target(alloc, texts, file)?,
            colour: outer.colour,
            source: outer.source,
        })?;
    }
    Ok(())
}

// What a reference gives that finds a file.
#[cycle(expand)]
fn enter_file(
    alloc: Global,
    texts: &Texts,
    reading: &mut Reading,
    way: &mut SmallVec<TextId, 64>,
    left: u32,
    most: u32,
    reference: &Reference,
    file: TextId,
    entries: &mut Vec<Entry>,
) -> Result<Option<Fault>, AllocError>
    requires read { AreMets (known_texts texts.now.known) reading.old.lists.items }
    ensures read { OnOk result (AreMets (known_texts texts.now.known) reading.new.lists.items) }
    ensures way { OnOk result (way.new.items ≡ way.old.items) }
    ensures extends { OnOk result (Extends entries.old.items entries.new.items) }
    ensures within { OnOk result (KeepsWithin most entries.old.items entries.new.items) }
    ensures gathers { IfOk result (λ end. Gathers most entries.old.items entries.new.items end
        (found_outcomes (enter_with left) (alone (known_texts texts.now.known) way.old.items reference.now.source.text) reference.now.state reference.now.source reference.now.colour reference.now.placement (Some file))) }
{
    let source = reference.source;
    if on_way(way.as_slice(), source.text, file) {
        return Ok(fault(What::Cycle, source));
    }
    if left == 0 {
        return Ok(fault(What::TooDeep, source));
    }
    cut_laws();
    action_law();
    under_laws();
    let outer = passed_down(reference);
    push_part(alloc, texts, &outer, file, entries)?;
    let start = entries.len();
    if start > most as usize {
        return Ok(None);
    }
    way.push(source.text)?;
    let end = expand_text(alloc, texts, reading, way, file, left - 1, most, entries)?;
    way.pop();
    let refusal = carry_from(&outer, start, entries);
    Ok(refusal.or(end))
}

// What a line gives that comes to this.
#[cycle(expand)]
fn expand_met(
    alloc: Global,
    texts: &Texts,
    reading: &mut Reading,
    way: &mut SmallVec<TextId, 64>,
    left: u32,
    most: u32,
    met: Met,
    entries: &mut Vec<Entry>,
) -> Result<Option<Fault>, AllocError>
    requires read { AreMets (known_texts texts.now.known) reading.old.lists.items }
    ensures read { OnOk result (AreMets (known_texts texts.now.known) reading.new.lists.items) }
    ensures way { OnOk result (way.new.items ≡ way.old.items) }
    ensures extends { OnOk result (Extends entries.old.items entries.new.items) }
    ensures within { OnOk result (KeepsWithin most entries.old.items entries.new.items) }
    ensures gathers { IfOk result (λ end. Gathers most entries.old.items entries.new.items end
        (met_outcomes (enter_with left) (known_texts texts.now.known) way.old.items met)) }
{
    let _: [Point; 0] = NO_POINTS;
    match met {
        Met::Shows(entry) => {
            entries.push(entry)?;
            Ok(None)
        }
        Met::Fails(fault) => Ok(Some(fault)),
        Met::Enters(reference, file) => enter_file(
            alloc, texts, reading, way, left, most, &reference, file, entries,
        ),
    }
}

// Appends what a text gives at the end of a way, below nothing, up to its first fault or an entry
// too many.
#[cycle(expand)]
fn expand_text(
    alloc: Global,
    texts: &Texts,
    reading: &mut Reading,
    way: &mut SmallVec<TextId, 64>,
    text: TextId,
    left: u32,
    most: u32,
    entries: &mut Vec<Entry>,
) -> Result<Option<Fault>, AllocError>
    requires read { AreMets (known_texts texts.now.known) reading.old.lists.items }
    ensures read { OnOk result (AreMets (known_texts texts.now.known) reading.new.lists.items) }
    ensures way { OnOk result (way.new.items ≡ way.old.items) }
    ensures extends { OnOk result (Extends entries.old.items entries.new.items) }
    ensures within { OnOk result (KeepsWithin most entries.old.items entries.new.items) }
    ensures gathers { IfOk result (λ end. Gathers most entries.old.items entries.new.items end
        (all left (alone (known_texts texts.now.known) way.old.items text))) }
{
    let _: [Point; 0] = NO_POINTS;
    under_laws();
    let mut before: usize = 0;
    while let Some(met) = reading.met_behind(alloc, texts, text, before)? {
        if entries.len() > most as usize {
            return Ok(None);
        }
        before += 1;
        let end = expand_met(alloc, texts, reading, way, left, most, met, entries)?;
        if let Some(fault) = end {
            return Ok(Some(fault));
        }
    }
    Ok(None)
}

// What a line of a root gives, by the state before it.
pub(crate) fn expand_line(
    alloc: Global,
    texts: &Texts,
    reading: &mut Reading,
    way: &mut SmallVec<TextId, 64>,
    left: u32,
    most: u32,
    state: State,
    source: Source,
    line: Line,
    entries: &mut Vec<Entry>,
) -> Result<Option<Fault>, AllocError>
    requires read { AreMets (known_texts texts.now.known) reading.old.lists.items }
    ensures read { OnOk result (AreMets (known_texts texts.now.known) reading.new.lists.items) }
    ensures way { OnOk result (way.new.items ≡ way.old.items) }
    ensures extends { OnOk result (Extends entries.old.items entries.new.items) }
    ensures within { OnOk result (KeepsWithin most entries.old.items entries.new.items) }
    ensures gathers { IfOk result (λ end. Gathers most entries.old.items entries.new.items end
        (line_outcomes (enter_with left) (alone (known_texts texts.now.known) way.old.items source.text) state source line)) }
{
    let _: [Point; 0] = NO_POINTS;
    under_laws();
    match line {
        // Most lines draw, and what they show is pushed as it is made.
        Line::Draw {
            kind,
            colour,
            points,
        } => {
            entries.push(drawn(state, source, kind, colour, points))?;
            Ok(None)
        }
        other => match meet(texts, state, source, other) {
            None => Ok(None),
            Some(met) => expand_met(alloc, texts, reading, way, left, most, met, entries),
        },
    }
}
