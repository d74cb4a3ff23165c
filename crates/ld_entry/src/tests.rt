//! Entries below references, and worked models by the definition of recursive expansion.
ghost use Rattle.ld_entry.specs.KeptRows.{AboveTheDepth, AsManyEntriesAsAllowed, AtTheDepth, CycleIsHigh, EndBehindAnOuterRange, HeightsOfModels, InTheMainColour, OneEntryMoreThanAllowed};
ghost use Rattle.ld_entry.specs.MovedRows.{MovedCycle, MovedPart, MovesInACycle, MovesOf64, MovesOf65, NoTargets, TargetsOverWalks};
ghost use Rattle.ld_entry.specs.Rows.{AbsentRoot, AsManyAsAllowed, CertificationPassed, CertificationRefused, CertificationStopped, ChainOf64, ChainOf65, ClipAndWinding, Colours, CycleFromTheFirst, CycleFromTheSecond, DepthOfOne, DepthOfThree, DepthOfTwo, DirectColours, EarlierFaultFromOutside, EndsOfAnOrdinaryModel, FirstOfAnOrdinaryModel, InvertnextAndMirror, MatrixOfZeros, MirrorAlone, NameWithoutNormalForm, NoFaultFromOutside, NoLineType, NumberOutOfRange, OneEntryAllowed, OneTooMany, OnlyEntryAllowed, ReferenceToItself, ReferenceWithoutFile, RootWithoutLines, RoundingAtEachReference, UnknownRoot};

mod colours;
mod lines;
mod moved;
mod names;
mod numbers;
mod states;
mod tables;

use crate::{Entry, Expansion, Fault, Outer, Source, What, carry};
use ld_bfc::{Below, State};
use ld_colour::{Colour, Table, TableError, colour_of};
use ld_line::{BfcWord, BlockLine, Kind, Line, RotWord, Winding, read_line};
use ld_names::{FileId, Folders, Lines, NameError, TextId};
use ld_num::{Dec, NumError, Placement, Point};
use std::alloc::Global;
use std::mem::size_of;

const NEUTRAL: Below = Below {
    enable: true,
    clip: true,
    invert: false,
};

const HERE: Source = Source {
    text: TextId(1),
    line: 7,
};

const ABOVE: Source = Source {
    text: TextId(0),
    line: 3,
};

// A function that moves an entry names its points, so that the prover knows of them.
const NO_POINTS: [Point; 0] = [];

// What a reference passes to points and colours, or what a line draws.
#[derive(Clone, Copy)]
enum Content {
    Reference(u32, Placement),
    Drawn(Kind, [Point; 4]),
    Other,
}

fn content_of(line: Line) -> Content {
    match line {
        Line::Ref {
            colour,
            placement,
            name,
        } => {
            drop(name);
            Content::Reference(colour, placement)
        }
        Line::Draw { kind, points, .. } => Content::Drawn(kind, points),
        Line::Blank
        | Line::Comment
        | Line::Org(_)
        | Line::Bfc(_)
        | Line::Step
        | Line::Rot(_)
        | Line::Malformed
        | Line::OutOfRange => Content::Other,
    }
}

// The reference that a line of type 1 is.
fn outer_of(alloc: Global, line: &str, below: Below) -> Option<Outer> {
    let line = read_line(alloc, line.as_bytes()).ok()?;
    match content_of(line) {
        Content::Reference(colour, placement) => Some(Outer {
            placement,
            colour: colour_of(colour),
            below,
            source: ABOVE,
        }),
        Content::Drawn(..) | Content::Other => None,
    }
}

// The entry that a line of type 2 to 5 draws.
fn entry_of(alloc: Global, line: &str, colour: Colour) -> Option<Entry> {
    let line = read_line(alloc, line.as_bytes()).ok()?;
    match content_of(line) {
        Content::Drawn(kind, points) => Some(Entry::Drawn {
            kind,
            certified: true,
            clip: true,
            winding: Winding::Ccw,
            colour,
            source: HERE,
            points,
        }),
        Content::Reference(..) | Content::Other => None,
    }
}

// A reference, a line in the file that it refers to, and the line where the reference puts it.
const CARRIED: &str =
    "1 16 0 0 0 .333333 0 0 0 1 0 0 0 1 b.ldr : 2 24 1.5 0 0 0 0 0 => 2 24 .5 0 0 0 0 0
1 16 0 0 0 3 0 0 0 1 0 0 0 1 a.ldr : 2 24 .5 0 0 0 0 0 => 2 24 1.5 0 0 0 0 0
1 4 1 2 3 0 0 0 0 0 0 0 0 0 b.ldr : 3 16 5 0 0 0 5 0 0 0 5 => 3 16 1 2 3 1 2 3 1 2 3
1 16 1000000 0 0 1 0 0 0 1 0 0 0 1 s.ldr : 2 16 0 0 0 -1 0 0 => 2 16 1000000 0 0 999999 0 0
1 16 0 1 0 -1 0 0 0 1 0 0 0 1 s.ldr : 4 16 0 0 0 1 0 0 1 1 0 0 1 0 => 4 16 0 1 0 -1 1 0 -1 2 0 0 2 0
1 16 0 0 0 0 1 0 1 0 0 0 0 1 s.ldr : 5 16 1 2 3 4 5 6 7 8 9 10 11 12 => 5 16 2 1 3 5 4 6 8 7 9 11 10 12";

// The colour that a line in colour 24 has below a reference in colour 16 or 4.
fn edge_below(colour: Colour) -> Colour {
    if colour == Colour::Main {
        Colour::Edge
    } else {
        Colour::EdgeOf(4)
    }
}

// Whether the reference carries the inner line's entry to that of the other line, where both are drawn
// in colour 24.
fn is_carried(alloc: Global, outer: &str, inner: &str, carried: &str) -> bool {
    let Some(outer) = outer_of(alloc, outer, NEUTRAL) else {
        return false;
    };
    let Some(inner) = entry_of(alloc, inner, Colour::Edge) else {
        return false;
    };
    match entry_of(alloc, carried, edge_below(outer.colour)) {
        Some(carried) => carry(&outer, &inner) == Ok(carried),
        None => false,
    }
}

fn is_row_carried(alloc: Global, row: &str) -> bool {
    let Some((row, carried)) = row.split_once(" => ") else {
        return false;
    };
    match row.split_once(" : ") {
        Some((outer, inner)) => is_carried(alloc, outer, inner, carried),
        None => false,
    }
}

fn is_out_of_range(outer: &Outer, inner: &Entry) -> bool {
    let range = Fault {
        what: What::Range,
        source: ABOVE,
    };
    carry(outer, inner) == Err(range)
}

fn is_kept(outer: &Outer, entry: &Entry) -> bool {
    carry(outer, entry) == Ok(*entry)
}

// A reference that moves points out of range, and keeps an entry that has none.
fn is_far(alloc: Global) -> bool {
    let Some(outer) = outer_of(alloc, "1 16 1000000 0 0 1 0 0 0 1 0 0 0 1 s.ldr", NEUTRAL) else {
        return false;
    };
    let part = Entry::Part {
        file: TextId(2),
        colour: Colour::Main,
        source: HERE,
    };
    match entry_of(alloc, "3 16 0 0 0 1 0 0 0 1 0", Colour::Main) {
        Some(inner) => is_out_of_range(&outer, &inner) && is_kept(&outer, &part),
        None => false,
    }
}

#[test]
fn points_and_colours_below_a_reference(rt: HostRuntime) {
    let alloc = rt.alloc();
    for row in CARRIED.lines() {
        assert!(rt; is_row_carried(alloc, row), "{row}");
    }
    assert!(rt; is_far(alloc));
    assert!(rt; size_of::<Entry>() <= 120);
}

fn has_culling(entry: Entry, below: Below) -> bool {
    match entry {
        Entry::Drawn {
            certified,
            clip,
            winding,
            colour,
            ..
        } => {
            let is_turned = winding == Winding::Cw;
            let is_passed = certified == below.enable && clip == below.clip;
            is_passed && is_turned == below.invert && colour == Colour::Code(1)
        }
        Entry::Part { .. } => false,
    }
}

// Whether a line below a reference has the culling that is passed to it, and its own colour.
fn is_culled(alloc: Global, below: Below) -> bool {
    let Some(outer) = outer_of(alloc, "1 4 0 0 0 1 0 0 0 1 0 0 0 1 s.ldr", below) else {
        return false;
    };
    let Some(inner) = entry_of(alloc, "2 24 0 0 0 1 0 0", Colour::Code(1)) else {
        return false;
    };
    match carry(&outer, &inner) {
        Ok(entry) => has_culling(entry, below),
        Err(_) => false,
    }
}

#[test]
fn culling_below_a_reference(rt: HostRuntime) {
    let alloc = rt.alloc();
    let uncertified = Below {
        enable: false,
        ..NEUTRAL
    };
    assert!(rt; is_culled(alloc, uncertified));
    let unclipped = Below {
        clip: false,
        ..NEUTRAL
    };
    assert!(rt; is_culled(alloc, unclipped));
    let inverted = Below {
        invert: true,
        ..NEUTRAL
    };
    assert!(rt; is_culled(alloc, inverted));
}

fn crosses_threads<T: Send + Sync>() {}

// What workers are lent or hand back crosses threads.
fn types_cross_threads() {
    crosses_threads::<Entry>();
    crosses_threads::<Expansion>();
    crosses_threads::<Fault>();
    crosses_threads::<Outer>();
    crosses_threads::<Dec>();
    crosses_threads::<Point>();
    crosses_threads::<Placement>();
    crosses_threads::<NumError>();
    crosses_threads::<FileId>();
    crosses_threads::<TextId>();
    crosses_threads::<Folders>();
    crosses_threads::<Lines>();
    crosses_threads::<NameError>();
    crosses_threads::<Line>();
    crosses_threads::<Kind>();
    crosses_threads::<BfcWord>();
    crosses_threads::<RotWord>();
    crosses_threads::<BlockLine>();
    crosses_threads::<State>();
    crosses_threads::<Below>();
    crosses_threads::<Colour>();
    crosses_threads::<Table>();
    crosses_threads::<TableError>();
}

// Points and colours below references, by the definition.
fn points_and_colours()
    ensures rounding_at_each_reference { RoundingAtEachReference }
    ensures matrix_of_zeros { MatrixOfZeros }
    ensures colours { Colours }
    ensures direct_colours { DirectColours }
{}

// A model of parts, and chains of texts.
fn models()
    ensures first_of_an_ordinary_model { FirstOfAnOrdinaryModel }
    ensures ends_of_an_ordinary_model { EndsOfAnOrdinaryModel }
    ensures chain_of64 { ChainOf64 }
    ensures chain_of65 { ChainOf65 }
{}

// Expansions that may be kept, and of texts that are too high.
fn kept_expansions()
    ensures heights_of_models { HeightsOfModels }
    ensures at_the_depth { AtTheDepth }
    ensures above_the_depth { AboveTheDepth }
    ensures cycle_is_high { CycleIsHigh }
    ensures in_the_main_colour { InTheMainColour }
    ensures end_behind_an_outer_range { EndBehindAnOuterRange }
    ensures one_entry_more_than_allowed { OneEntryMoreThanAllowed }
    ensures as_many_entries_as_allowed { AsManyEntriesAsAllowed }
{}

// Parts that moved.
fn moved_parts()
    ensures moved_part { MovedPart }
    ensures targets_over_walks { TargetsOverWalks }
    ensures no_targets { NoTargets }
    ensures moved_cycle { MovedCycle }
    ensures moves_in_a_cycle { MovesInACycle }
    ensures moves_of64 { MovesOf64 }
    ensures moves_of65 { MovesOf65 }
{}

// Back face culling below references.
fn culling()
    ensures invertnext_and_mirror { InvertnextAndMirror }
    ensures mirror_alone { MirrorAlone }
    ensures certification_passed { CertificationPassed }
    ensures certification_stopped { CertificationStopped }
    ensures certification_refused { CertificationRefused }
    ensures clip_and_winding { ClipAndWinding }
{}

// Faults, limits, and texts that give nothing.
fn faults_and_limits()
    ensures cycle_from_the_first { CycleFromTheFirst }
    ensures cycle_from_the_second { CycleFromTheSecond }
    ensures reference_to_itself { ReferenceToItself }
    ensures earlier_fault_from_outside { EarlierFaultFromOutside }
    ensures no_fault_from_outside { NoFaultFromOutside }
    ensures one_too_many { OneTooMany }
    ensures as_many_as_allowed { AsManyAsAllowed }
    ensures one_entry_allowed { OneEntryAllowed }
    ensures only_entry_allowed { OnlyEntryAllowed }
    ensures depth_of_one { DepthOfOne }
    ensures depth_of_two { DepthOfTwo }
    ensures depth_of_three { DepthOfThree }
    ensures root_without_lines { RootWithoutLines }
    ensures absent_root { AbsentRoot }
    ensures unknown_root { UnknownRoot }
    ensures reference_without_file { ReferenceWithoutFile }
    ensures no_line_type { NoLineType }
    ensures name_without_normal_form { NameWithoutNormalForm }
    ensures number_out_of_range { NumberOutOfRange }
{}
