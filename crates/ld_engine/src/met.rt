// What a line of a text comes to among the known texts, whichever way leads to the text.
ghost use Rattle.std.specs.Prelude.{◌≡◌};
ghost use Rattle.ld_entry.specs.NumberedTexts.{known_texts};
ghost use Rattle.ld_entry.specs.Outcomes.{own_entry};
ghost use Rattle.ld_engine.specs.Inside.Meeting.{fails, met_found, met_name, met_of};

use crate::seen::found;
use ld_bfc::{State, face};
use ld_colour::colour_of;
use ld_entry::{Entry, Fault, Source, What};
use ld_line::{Kind, Line};
use ld_names::{Name, TextId};
use ld_num::{Placement, Point};
use ld_texts::Texts;

// Named where entries, or what lines come to, are moved: the prover looks for the types inside them
// among those named.
pub(crate) const NO_POINTS: [Point; 0] = [];

pub(crate) const NO_ENTRIES: [Entry; 0] = [];

// A reference that is met in a state.
#[derive(Clone, Copy)]
pub(crate) struct Reference {
    pub(crate) state: State,
    pub(crate) source: Source,
    pub(crate) colour: u32,
    pub(crate) placement: Placement,
}

#[derive(Clone, Copy)]
pub(crate) enum Met {
    Shows(Entry),
    // What the reference finds.
    Enters(Reference, TextId),
    Fails(Fault),
}

pub(crate) fn drawn(
    state: State,
    source: Source,
    kind: Kind,
    colour: u32,
    points: [Point; 4],
) -> Entry
    ensures { result ≡ own_entry state source kind colour points }
{
    let (certified, clip, winding) = face(state);
    Entry::Drawn {
        kind,
        certified,
        clip,
        winding,
        colour: colour_of(colour),
        source,
        points,
    }
}

fn fails(what: What, source: Source) -> Met
    ensures { result ≡ fails what source }
{
    Met::Fails(Fault { what, source })
}

fn met_found(reference: Reference, file: Option<TextId>) -> Met
    ensures { result ≡ met_found reference file }
{
    match file {
        None => fails(What::Missing, reference.source),
        Some(file) => Met::Enters(reference, file),
    }
}

fn met_name(texts: &Texts, reference: Reference, name: Option<Name>) -> Met
    ensures { result ≡ met_name (known_texts texts.now.known) reference name }
{
    match name {
        None => fails(What::Unnamed, reference.source),
        Some(name) => met_found(reference, found(texts, reference.source.text, &name)),
    }
}

// What a line comes to that is met in a state; nothing where it gives no entry and no fault.
pub(crate) fn meet(texts: &Texts, state: State, source: Source, line: Line) -> Option<Met>
    ensures { result ≡ met_of (known_texts texts.now.known) state source line }
{
    let _: [Point; 0] = NO_POINTS;
    match line {
        Line::Malformed => Some(fails(What::Malformed, source)),
        Line::OutOfRange => Some(fails(What::Range, source)),
        Line::Draw {
            kind,
            colour,
            points,
        } => Some(Met::Shows(drawn(state, source, kind, colour, points))),
        Line::Ref {
            colour,
            placement,
            name,
        } => {
            let reference = Reference {
                state,
                source,
                colour,
                placement,
            };
            Some(met_name(texts, reference, name))
        }
        _ => None,
    }
}
