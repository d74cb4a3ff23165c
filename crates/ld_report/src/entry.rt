ghost use Rattle.std.specs.Prelude.{◌≡◌, ◌++◌, codes, OnErr, OnOk};
ghost use Rattle.std.specs.List.{flat_map};
ghost use Rattle.ld_colour.specs.Table.{counting};
ghost use Rattle.ld_texts.specs.Known.{file_at};
ghost use Rattle.ld_report.specs.Entries.{entries_text, entry_text};
ghost use Rattle.ld_report.specs.Extending.{Extends};
ghost use Rattle.ld_report.specs.Pieces.{certified_text, clip_text, kind_text, numbered_text, point_text, source_text, winding_text};

use crate::pieces::{print_file, print_head, print_point, print_source};
use crate::undoing::or_undone;
use ld_colour::Table;
use ld_entry::{Entry, Source};
use ld_line::{Kind, Winding};
use ld_names::TextId;
use ld_num::Point;
use ld_texts::Texts;
use std::alloc::AllocError;

// What an entry's line mostly takes.
const LINE_BYTES: usize = 128;

// Named where entries are moved: the prover looks for the types inside them among those named.
pub(crate) const NO_POINTS: [Point; 0] = [];

/// Appends an entry as one line, in this project's own words: `KIND COLOUR RGB CERT CLIP WINDING
/// POINTS SOURCE`, or `part COLOUR RGB FILE at SOURCE`. A colour is its number as File Format 1.0.2
/// ("Colours") writes it, or `e` and a code for the code's edge colour; RGB is `#RRGGBB`, or `-` where
/// the table has none. Points are `x,y,z` in LDraw units. A file that is not known has no name.
///
/// # Errors
///
/// Want of memory. The text is then as before.
pub fn print_entry(
    texts: &Texts,
    table: &Table,
    entry: &Entry,
    into: &mut Vec<u8>,
) -> Result<(), AllocError>
    ensures ok { OnOk result (into.new.items ≡ into.old.items ++ entry_text texts.now.known (counting table.now) entry.now) }
    ensures err { OnErr result (into.new.items ≡ into.old.items) }
{
    let length = into.len();
    let outcome = append_entry(texts, table, entry, into);
    or_undone(outcome, length, into)
}

/// Appends entries, each as one line.
///
/// # Errors
///
/// Want of memory. The text is then as before.
pub fn print_entries(
    texts: &Texts,
    table: &Table,
    entries: &[Entry],
    into: &mut Vec<u8>,
) -> Result<(), AllocError>
    ensures ok { OnOk result (into.new.items ≡ into.old.items ++ entries_text texts.now.known (counting table.now) entries.now) }
    ensures err { OnErr result (into.new.items ≡ into.old.items) }
{
    let length = into.len();
    let outcome = append_entries(texts, table, entries, into);
    or_undone(outcome, length, into)
}

#[tactic(auto, using(crate::proofs::Extending::extending))]
pub(crate) fn append_entries(
    texts: &Texts,
    table: &Table,
    entries: &[Entry],
    into: &mut Vec<u8>,
) -> Result<(), AllocError>
    ensures ok { OnOk result (into.new.items ≡ into.old.items ++ entries_text texts.now.known (counting table.now) entries.now) }
    ensures keeps { Extends into.old.items into.new.items }
{
    into.reserve(entries.len().saturating_mul(LINE_BYTES))?;
    for entry in entries {
        append_entry(texts, table, entry, into)?;
    }
    Ok(())
}

#[tactic(auto, using(crate::proofs::Extending::extending), unfolding(crate::specs::Entries::entry_text))]
fn append_entry(
    texts: &Texts,
    table: &Table,
    entry: &Entry,
    into: &mut Vec<u8>,
) -> Result<(), AllocError>
    ensures ok { OnOk result (into.new.items ≡ into.old.items ++ entry_text texts.now.known (counting table.now) entry.now) }
    ensures keeps { Extends into.old.items into.new.items }
{
    let _: [Point; 0] = NO_POINTS;
    let entry = *entry;
    match entry {
        Entry::Drawn {
            kind,
            certified,
            clip,
            winding,
            colour,
            source,
            points,
        } => {
            print_head(kind_text(kind), table, colour, into)?;
            into.extend_from_slice(culling_words(certified, clip, winding))?;
            print_points(&points[..kind.points()], into)?;
            end_line(texts, source, into)?;
            Ok(())
        }
        Entry::Part {
            file,
            colour,
            source,
        } => {
            print_head(b"part ", table, colour, into)?;
            print_part(texts, file, into)?;
            end_line(texts, source, into)?;
            Ok(())
        }
    }
}

#[tactic(auto, using(crate::proofs::Extending::extending))]
fn print_part(texts: &Texts, file: TextId, into: &mut Vec<u8>) -> Result<(), AllocError>
    ensures ok { OnOk result (into.new.items ≡ into.old.items ++ (codes " " ++ numbered_text (file_at texts.now.known file.0) ++ codes " at ")) }
    ensures keeps { Extends into.old.items into.new.items }
{
    into.push(b' ')?;
    print_file(texts, file, into)?;
    into.extend_from_slice(b" at ")
}

// The source of an entry stands at the end of its line.
#[tactic(auto, using(crate::proofs::Extending::extending))]
fn end_line(texts: &Texts, source: Source, into: &mut Vec<u8>) -> Result<(), AllocError>
    ensures ok { OnOk result (into.new.items ≡ into.old.items ++ (source_text texts.now.known source ++ codes "\n")) }
    ensures keeps { Extends into.old.items into.new.items }
{
    print_source(texts, source, into)?;
    into.push(b'\n')?;
    Ok(())
}

#[tactic(auto, using(crate::proofs::Extending::extending))]
fn print_points(points: &[Point], into: &mut Vec<u8>) -> Result<(), AllocError>
    ensures ok { OnOk result (into.new.items ≡ into.old.items ++ flat_map (λ point. point_text point ++ codes " ") points.now) }
    ensures keeps { Extends into.old.items into.new.items }
{
    for point in points {
        print_point(point, into)?;
        into.push(b' ')?;
    }
    Ok(())
}

fn kind_text(kind: Kind) -> &'static [u8]
    ensures { result.now ≡ kind_text kind ++ codes " " }
{
    match kind {
        Kind::Line2 => b"line ",
        Kind::Tri => b"tri ",
        Kind::Quad => b"quad ",
        Kind::Opt => b"opt ",
    }
}

fn culling_words(certified: bool, clip: bool, winding: Winding) -> &'static [u8]
    ensures { result.now ≡ codes " " ++ certified_text certified ++ codes " " ++ clip_text clip ++ codes " " ++ winding_text winding ++ codes " " }
{
    match (certified, clip, winding) {
        (true, true, Winding::Ccw) => b" cert clip ccw ",
        (true, true, Winding::Cw) => b" cert clip cw ",
        (true, false, Winding::Ccw) => b" cert noclip ccw ",
        (true, false, Winding::Cw) => b" cert noclip cw ",
        (false, true, Winding::Ccw) => b" nocert clip ccw ",
        (false, true, Winding::Cw) => b" nocert clip cw ",
        (false, false, Winding::Ccw) => b" nocert noclip ccw ",
        (false, false, Winding::Cw) => b" nocert noclip cw ",
    }
}
