use ld_bfc::Below;
use ld_colour::Colour;
use ld_line::{Kind, Winding};
use ld_names::{List, TextId};
use ld_num::{Placement, Point};

/// The line of a known text from which something comes; lines are numbered from 1.
#[derive(Clone, Copy, Debug, PartialEq, Eq)]
pub struct Source {
    pub text: TextId,
    pub line: u32,
}

/// What an expansion shows: a drawn line of type 2 to 5, or a part that a text which is no part
/// refers to (File Format 1.0.2, "Line Type 1" to "Line Type 5").
#[derive(Clone, Copy, Debug, PartialEq, Eq)]
pub enum Entry {
    /// The fields stand in the order in which they take the least memory.
    Drawn {
        kind: Kind,
        /// Whether the winding may be relied on (Back Face Culling Language Extension).
        certified: bool,
        /// Whether the back of a certified face may be left out.
        clip: bool,
        winding: Winding,
        colour: Colour,
        source: Source,
        /// As many as the kind has, in LDraw units; those that are not used are zero.
        points: [Point; 4],
    },
    /// What the part draws follows as entries of its own.
    Part {
        /// The text at which the moves of the file found end.
        file: TextId,
        colour: Colour,
        source: Source,
    },
}

/// Why a line gives no entry.
#[derive(Clone, Copy, Debug, PartialEq, Eq)]
pub enum What {
    /// The referenced file is in none of the folders.
    Missing,
    /// The referenced file's name has no normal form.
    Unnamed,
    /// The referenced file is on the way from the root to the line.
    Cycle,
    /// The way to the line has as many files as a way may have.
    TooDeep,
    /// A number is out of range, or a reference moves a point out of range.
    Range,
    /// No line type allows the line.
    Malformed,
    /// The entry is one more than an answer may have.
    TooMany,
}

/// What stands in the place of an entry, and where.
#[derive(Clone, Copy, Debug, PartialEq, Eq)]
pub struct Fault {
    pub what: What,
    pub source: Source,
}

/// The expansion of a text in the main colour and below nothing, cut behind the first fault or the
/// first entry too many.
#[derive(Debug, Drop)]
pub struct Expansion {
    /// The entries before the first fault, but no more than one too many.
    pub entries: List<Entry>,
    /// For each line, how many of them stand up to and with it; the lines behind the end repeat the
    /// last number.
    pub line_ends: List<u32>,
    /// The first fault, unless an entry too many stands before it.
    pub end: Option<Fault>,
}

/// What a reference passes down to the entries of the file that it refers to: its placement, its
/// colour, its part in back face culling, and where it stands.
#[derive(Clone, Copy, Debug, PartialEq, Eq)]
pub struct Outer {
    pub placement: Placement,
    pub colour: Colour,
    pub below: Below,
    pub source: Source,
}
