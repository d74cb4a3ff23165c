//! Worked texts without references. Those with rotation steps are run by the command's tests.
ghost use Rattle.std.specs.Prelude.{◌≡◌, ◌∷◌, [], Err, IfOk, Ok, codes, true, false};
ghost use Rattle.ld_line.specs.Word.{ended};
ghost use Rattle.ld_line.specs.declared.line.Kind.TheVariants.{Line2, Quad, Tri};
ghost use Rattle.ld_line.specs.declared.line.Winding.TheVariants.{Ccw, Cw};
ghost use Rattle.ld_colour.specs.declared.colour.Colour.TheVariants.{Code, Direct, Edge, EdgeOf, Main};
ghost use Rattle.ld_steps.specs.Laws.{AreSteps};
ghost use Rattle.ld_inline.specs.Rows.{along, colours, corner_points, entry, no_colours, six_steps, step, turned_by};
ghost use Rattle.ld_inline.specs.Text.{inlined_text};

use crate::inlining::NO_POINTS;
use crate::{InlineError, inline};
use ld_colour::{Colour, Table};
use ld_entry::{Entry, Source};
use ld_line::{Kind, Line, Winding, read_line, read_number};
use ld_names::{List, TextId};
use ld_num::Point;
use ld_steps::StepPart;
use std::alloc::{AllocError, Global};

const COLOURS: &[u8] = b"0 !COLOUR Red CODE 4 VALUE #C91A09 EDGE #333333\n\
0 !COLOUR Blue CODE 1 VALUE 0x0055bf EDGE 0\n\
0 !COLOUR Black CODE 0 VALUE #05131D EDGE #595959";

// Entries of one step, by colour, culling and line; and the lines of their text. The first two are
// the worked examples empty and clip-and-winding.
const TEXTS: &str = " => 0 STEP
m cert clip cw 3 16 0 0 0 1 0 0 0 1 0; m cert noclip ccw 3 16 0 0 0 1 0 0 0 1 0 => 3 16 0 1 0 1 0 0 0 0 0|0 BFC NOCLIP|3 16 0 0 0 1 0 0 0 1 0|0 STEP
e4 nocert clip ccw 2 24 0 0 0 1.5 0 0; e1 nocert clip ccw 2 24 0 0 0 1 0 0; 1 cert clip ccw 2 24 0 0 0 1 0 0 => 0 BFC NOCLIP|2 0x2333333 0 0 0 1.5 0 0|2 0x205131D 0 0 0 1 0 0|0 BFC CLIP|2 1 0 0 0 1 0 0|0 STEP
d16744448 cert clip cw 4 16 0 0 0 1 0 0 1 1 0 0 -1 0; E cert clip cw 5 24 0 0 0 1 0 0 2 0 0 3 0 0; 4 cert clip ccw 1 16 0 0 0 1 0 0 0 1 0 0 0 1 a.dat => 4 0x2FF8000 0 -1 0 1 1 0 1 0 0 0 0 0|5 24 0 0 0 1 0 0 2 0 0 3 0 0|0 STEP
m nocert clip cw 3 16 0 0 0 1 0 0 0 1 0; m nocert noclip ccw 2 16 0 0 0 1 0 0 => 0 BFC NOCLIP|3 16 0 1 0 1 0 0 0 0 0|2 16 0 0 0 1 0 0|0 STEP";

fn number(text: &str) -> u32 {
    read_number(text.as_bytes()).unwrap_or(0)
}

fn colour_of(word: &str) -> Colour {
    if word == "m" {
        return Colour::Main;
    }
    if word == "E" {
        return Colour::Edge;
    }
    if let Some(code) = word.strip_prefix("e") {
        return Colour::EdgeOf(number(code));
    }
    match word.strip_prefix("d") {
        Some(value) => Colour::Direct(number(value)),
        None => Colour::Code(number(word)),
    }
}

// What a line shows.
#[derive(Clone, Copy)]
enum Shown {
    Drawn(Kind, [Point; 4]),
    Other,
}

fn read_shown(line: Line) -> Shown {
    match line {
        Line::Draw { kind, points, .. } => Shown::Drawn(kind, points),
        Line::Ref { name, .. } => {
            drop(name);
            Shown::Other
        }
        Line::Blank
        | Line::Comment
        | Line::Org(_)
        | Line::Bfc(_)
        | Line::Step
        | Line::Rot(_)
        | Line::Malformed
        | Line::OutOfRange => Shown::Other,
    }
}

fn shown_entry(
    shown: Shown,
    certified: bool,
    clip: bool,
    winding: Winding,
    colour: Colour,
) -> Entry {
    let _: [Point; 0] = NO_POINTS;
    let source = Source {
        text: TextId(0),
        line: 1,
    };
    match shown {
        Shown::Drawn(kind, points) => Entry::Drawn {
            kind,
            certified,
            clip,
            winding,
            colour,
            source,
            points,
        },
        Shown::Other => Entry::Part {
            file: TextId(1),
            colour,
            source,
        },
    }
}

fn winding_of(word: &str) -> Winding {
    if word == "cw" {
        Winding::Cw
    } else {
        Winding::Ccw
    }
}

// The first word of a row, and what stands behind it.
fn cut(row: &str) -> (&str, &str) {
    match row.split_once(' ') {
        Some(parts) => parts,
        None => (row, ""),
    }
}

fn entry_of(alloc: Global, row: &str) -> Result<Entry, AllocError> {
    let (colour, row) = cut(row);
    let (certified, row) = cut(row);
    let (clip, row) = cut(row);
    let (winding, line) = cut(row);
    let shown = read_shown(read_line(alloc, line.as_bytes())?);
    Ok(shown_entry(
        shown,
        certified == "cert",
        clip == "clip",
        winding_of(winding),
        colour_of(colour),
    ))
}

fn push_entry(alloc: Global, row: &str, entries: &mut Vec<Entry>) -> Result<(), AllocError> {
    let _: [Point; 0] = NO_POINTS;
    if row.is_empty() {
        return Ok(());
    }
    entries.push(entry_of(alloc, row)?)?;
    Ok(())
}

fn entries_of(alloc: Global, rows: &str) -> Result<Vec<Entry>, AllocError> {
    let mut entries = Vec::new(alloc);
    for row in rows.split("; ") {
        push_entry(alloc, row, &mut entries)?;
    }
    Ok(entries)
}

fn append_line(line: &str, text: &mut Vec<u8>) -> Result<(), AllocError> {
    text.extend_from_slice(line.as_bytes())?;
    text.extend_from_slice(b"\r\n")
}

fn text_of(alloc: Global, lines: &str) -> Result<Vec<u8>, AllocError> {
    let mut text = Vec::new(alloc);
    append_line("0 BFC CERTIFY CCW", &mut text)?;
    for line in lines.split("|") {
        append_line(line, &mut text)?;
    }
    Ok(text)
}

#[tactic(auto, using(crate::proofs::Worked::one_step))]
fn one_step(alloc: Global, count: u32) -> Result<Vec<StepPart>, AllocError>
    ensures { IfOk result (λ steps. AreSteps count steps.items) }
{
    let mut steps = Vec::new(alloc);
    steps.push(StepPart {
        first: 0,
        end: count,
        view: List::new(alloc),
    })?;
    Ok(steps)
}

// What entries of one step give, if there are few.
fn inlined_in_one_step(
    alloc: Global,
    entries: &[Entry],
    table: &Table,
) -> Result<Vec<u8>, InlineError> {
    if entries.len() >= 100 {
        return Err(InlineError::Memory);
    }
    match one_step(alloc, entries.len() as u32) {
        Ok(steps) => inline(alloc, entries, steps.as_slice(), table),
        Err(AllocError) => Err(InlineError::Memory),
    }
}

fn lacks_four(alloc: Global, entries: &[Entry]) -> bool {
    let none = Table::empty(alloc);
    matches!(
        inlined_in_one_step(alloc, entries, &none),
        Err(InlineError::NoColour(4))
    )
}

fn is_inlined(alloc: Global, entries: &[Entry], want: &[u8]) -> bool {
    let Ok(table) = Table::read(alloc, COLOURS) else {
        return false;
    };
    match inlined_in_one_step(alloc, entries, &table) {
        Ok(text) => text.as_slice() == want,
        Err(_) => false,
    }
}

fn row_holds(alloc: Global, row: &str) -> Result<bool, AllocError> {
    let Some((entries, lines)) = row.split_once(" => ") else {
        return Ok(false);
    };
    let entries = entries_of(alloc, entries)?;
    let want = text_of(alloc, lines)?;
    let is_lacking = lacks_four(alloc, entries.as_slice()) == row.starts_with("e4");
    Ok(is_lacking && is_inlined(alloc, entries.as_slice(), want.as_slice()))
}

#[test]
fn entries_are_inlined(rt: HostRuntime) -> Result<(), AllocError> {
    for row in TEXTS.lines() {
        assert!(rt; row_holds(rt.alloc(), row)?, "{row}");
    }
    Ok(())
}

// The definitions, by computing: the worked examples empty, clip-and-winding, colours and steps.
fn inlined_by_definition()
    ensures empty { inlined_text [] (step 0 0 [] ∷ []) no_colours ≡ Ok (ended (codes "0 BFC CERTIFY CCW" ∷ codes "0 STEP" ∷ [])) }
    ensures culling { inlined_text (entry Tri true true Cw Main corner_points ∷ entry Tri true false Ccw Main corner_points ∷ []) (step 0 2 [] ∷ []) no_colours
        ≡ Ok (ended (codes "0 BFC CERTIFY CCW" ∷ codes "3 16 0 1 0 1 0 0 0 0 0" ∷ codes "0 BFC NOCLIP" ∷ codes "3 16 0 0 0 1 0 0 0 1 0" ∷ codes "0 STEP" ∷ [])) }
    ensures missing { inlined_text (entry Line2 false true Ccw (Code 4) (along 1) ∷ entry Line2 false true Ccw (EdgeOf 4) (along 1) ∷ entry Line2 false true Ccw (EdgeOf 1) (along 1) ∷ []) (step 0 3 [] ∷ []) no_colours ≡ Err 4 }
    ensures edges { inlined_text (entry Line2 false true Ccw (EdgeOf 4) (along 1) ∷ entry Line2 false true Cw (EdgeOf 1) (along 1) ∷ entry Quad true true Cw (Direct 0xFF8000) corner_points ∷ []) (step 0 3 [] ∷ []) colours
        ≡ Ok (ended (codes "0 BFC CERTIFY CCW" ∷ codes "0 BFC NOCLIP" ∷ codes "2 0x2333333 0 0 0 1 0 0" ∷ codes "2 0x205131D 0 0 0 1 0 0" ∷ codes "0 BFC CLIP" ∷ codes "4 0x2FF8000 0 0 0 0 1 0 1 0 0 0 0 0" ∷ codes "0 STEP" ∷ [])) }
    ensures steps { inlined_text (entry Line2 false true Ccw Edge (along 1) ∷ entry Line2 false true Ccw Edge (along 3) ∷ entry Line2 false true Ccw Edge (along 4) ∷ entry Line2 false true Ccw Edge (along 2) ∷ []) (six_steps (turned_by 0 45) (turned_by 10 0)) no_colours
        ≡ Ok (ended (codes "0 BFC CERTIFY CCW" ∷ codes "0 BFC NOCLIP" ∷ codes "2 24 0 0 0 1 0 0" ∷ codes "0 STEP" ∷ codes "0 STEP" ∷ codes "0 ROTSTEP 0 45 0 REL" ∷ codes "0 ROTSTEP 10 0 0 ADD" ∷ codes "2 24 0 0 0 3 0 0" ∷ codes "2 24 0 0 0 4 0 0" ∷ codes "0 ROTSTEP END" ∷ codes "2 24 0 0 0 2 0 0" ∷ codes "0 STEP" ∷ [])) }
{}
