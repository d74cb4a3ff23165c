// What a line of a text says by itself, and what its name finds: whichever way leads to the text.
ghost use Rattle.std.specs.Prelude.{◌≡◌};
ghost use Rattle.ld_entry.specs.Outcomes.{own_entry};
ghost use Rattle.ld_work.specs.Inside.Parsing.{fails, finding_of_name, parsed as parsed_line};
ghost use Rattle.ld_work.specs.Inside.Working.{texts_of};

use crate::seen::found;
use ld_bfc::{State, face};
use ld_colour::colour_of;
use ld_entry::{Entry, Fault, Source, What};
use ld_graph::Reader;
use ld_line::{Kind, Line};
use ld_names::{Name, TextId};
use ld_num::{Placement, Point};

// Named where entries, or what lines say, are moved: the prover looks for the types inside them among
// those named.
pub(crate) const NO_POINTS: [Point; 0] = [];

pub(crate) const NO_ENTRIES: [Entry; 0] = [];

pub(crate) const NO_LINES: ([Point; 0], [Entry; 0], [Said; 0]) = ([], [], []);

// A sub-file reference that is met in a state.
#[derive(Clone, Copy)]
pub(crate) struct Reference {
    pub(crate) state: State,
    pub(crate) source: Source,
    pub(crate) colour: u32,
    pub(crate) placement: Placement,
}

// What a line says, whatever else is known.
#[derive(Clone, Copy)]
pub(crate) enum Said {
    Nothing,
    Shows(Entry),
    Fails(Fault),
    Uses(Reference),
}

// What the name in a line finds among the known texts.
#[derive(Clone, Copy)]
pub(crate) enum Finding {
    NoName,
    NoFile,
    File(TextId),
}

#[derive(Clone, Copy)]
pub(crate) struct ParsedLine {
    pub(crate) said: Said,
    pub(crate) finding: Finding,
}

fn drawn(state: State, source: Source, kind: Kind, colour: u32, points: [Point; 4]) -> Entry
    ensures { result ≡ own_entry state source kind colour points }
{
    let (certified, clip, winding) = face(state);
    Entry::Drawn {
        kind,
        certified,
        clip,
        winding,
        colour: colour_of(colour),
        source,
        points,
    }
}

fn fails(what: What, source: Source) -> Said
    ensures { result ≡ fails what source }
{
    Said::Fails(Fault { what, source })
}

fn finding_of_name(reader: &Reader<'_>, text: TextId, name: Option<Name>) -> Finding
    ensures { result ≡ finding_of_name (texts_of reader.now) text name }
{
    match name {
        None => Finding::NoName,
        Some(name) => match found(reader, text, &name) {
            None => Finding::NoFile,
            Some(file) => Finding::File(file),
        },
    }
}

// A line that is met in a state.
pub(crate) fn parse(reader: &Reader<'_>, state: State, source: Source, line: Line) -> ParsedLine
    ensures { result ≡ parsed_line (texts_of reader.now) state source line }
{
    let _: [Point; 0] = NO_POINTS;
    let (said, finding) = match line {
        Line::Malformed => (fails(What::Malformed, source), Finding::NoName),
        Line::OutOfRange => (fails(What::Range, source), Finding::NoName),
        Line::Draw {
            kind,
            colour,
            points,
        } => (
            Said::Shows(drawn(state, source, kind, colour, points)),
            Finding::NoName,
        ),
        Line::Ref {
            colour,
            placement,
            name,
        } => {
            let reference = Reference {
                state,
                source,
                colour,
                placement,
            };
            let finding = finding_of_name(reader, source.text, name);
            (Said::Uses(reference), finding)
        }
        _ => (Said::Nothing, Finding::NoName),
    };
    ParsedLine { said, finding }
}
