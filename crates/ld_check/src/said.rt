// What a single line says.
ghost use Rattle.std.specs.Prelude.{◌≡◌, count_by, length, nat_lt};
ghost use Rattle.ld_names.specs.Normal.{is_blank};
ghost use Rattle.ld_line.specs.Field.{fields};
ghost use Rattle.ld_check.specs.Lines.{has_more_fields, is_edge, is_edge_off_24, is_face_in_24, is_malformed, is_out_of_range, is_singular_reference, is_unnamed};

use ld_line::{Kind, Line, split_field};
use ld_names::blank;
use ld_num::singular;

const EDGE_COLOUR: u32 = 24;

pub(crate) fn is_malformed(line: &Line) -> bool
    ensures { result ≡ is_malformed line.now }
{
    matches!(line, Line::Malformed)
}

pub(crate) fn is_out_of_range(line: &Line) -> bool
    ensures { result ≡ is_out_of_range line.now }
{
    matches!(line, Line::OutOfRange)
}

pub(crate) fn is_unnamed(line: &Line) -> bool
    ensures { result ≡ is_unnamed line.now }
{
    matches!(line, Line::Ref { name: None, .. })
}

pub(crate) fn is_singular_reference(line: &Line) -> bool
    ensures { result ≡ is_singular_reference line.now }
{
    match line {
        Line::Ref { placement, .. } => singular(placement),
        _ => false,
    }
}

// Whether a line of these bytes has fields behind those that it needs.
pub(crate) fn has_more_fields(bytes: &[u8], line: &Line) -> bool
    ensures { result ≡ has_more_fields (length (fields bytes.now)) line.now }
{
    match line {
        Line::Draw { kind, .. } => has_more_than(bytes, 2 + 3 * kind.points()),
        _ => false,
    }
}

// Between fields stand blanks, so that most lines need not be cut once more.
#[tactic(auto, using(crate::proofs::Behind::none_behind))]
fn has_more_than(bytes: &[u8], count: usize) -> bool
    ensures { result ≡ nat_lt count (length (fields bytes.now)) }
{
    if blanks(bytes) < count {
        return false;
    }
    has_field_behind(bytes, count)
}

fn blanks(bytes: &[u8]) -> usize
    ensures { result ≡ count_by is_blank bytes.now }
{
    bytes.iter().filter(|byte| blank(**byte)).count()
}

// Whether a field stands behind the first so many.
fn has_field_behind(bytes: &[u8], count: usize) -> bool
    ensures { result ≡ nat_lt count (length (fields bytes.now)) }
{
    let mut rest = bytes;
    for _ in 0..count {
        let Some((_, more)) = split_field(rest) else {
            return false;
        };
        rest = more;
    }
    has_field(rest)
}

fn has_field(bytes: &[u8]) -> bool
    ensures { result ≡ nat_lt 0 (length (fields bytes.now)) }
{
    split_field(bytes).is_some()
}

pub(crate) fn is_edge_off_24(line: &Line) -> bool
    ensures { result ≡ is_edge_off_24 line.now }
{
    match line {
        Line::Draw { kind, colour, .. } => is_edge(*kind) && *colour != EDGE_COLOUR,
        _ => false,
    }
}

pub(crate) fn is_face_in_24(line: &Line) -> bool
    ensures { result ≡ is_face_in_24 line.now }
{
    match line {
        Line::Draw { kind, colour, .. } => !is_edge(*kind) && *colour == EDGE_COLOUR,
        _ => false,
    }
}

fn is_edge(kind: Kind) -> bool
    ensures { result ≡ is_edge kind }
{
    matches!(kind, Kind::Line2 | Kind::Opt)
}
