// Words of a line, appended one by one.
ghost use Rattle.std.specs.Prelude.{◌≡◌, ◌++◌, ◌∷◌, [], decimal, map, take, OnOk};
ghost use Rattle.std.specs.List.{flat_map};
ghost use Rattle.ld_num.specs.Text.{dec_text};
ghost use Rattle.ld_line.specs.Kind.{points_in};
ghost use Rattle.ld_line.specs.Printing.{coordinates, direct_text};
ghost use Rattle.ld_colour.specs.Table.{counting};
ghost use Rattle.ld_inline.specs.Text.{written_colour, drawn_words, lines_text, written_points};
ghost use Rattle.ld_inline.specs.Inside.Shown.{following};

use itoa::Buffer;
use ld_colour::{Colour, Table};
use ld_line::{Kind, Winding, kind_word, six_hex};
use ld_num::{Dec, Point, print_dec};
use std::alloc::AllocError;

// A word behind a space.
pub(crate) fn append_word(word: &[u8], into: &mut Vec<u8>) -> Result<(), AllocError>
    ensures { OnOk result (into.new.items ≡ into.old.items ++ 32 ∷ word.now) }
{
    into.push(b' ')?;
    into.extend_from_slice(word)
}

// A number behind a space.
pub(crate) fn append_number(value: Dec, into: &mut Vec<u8>) -> Result<(), AllocError>
    ensures { OnOk result (into.new.items ≡ into.old.items ++ 32 ∷ dec_text value) }
{
    into.push(b' ')?;
    print_dec(value, into)
}

fn append_point(point: &Point, into: &mut Vec<u8>) -> Result<(), AllocError>
    ensures { OnOk result (into.new.items ≡ into.old.items ++ following (map dec_text (coordinates point.now))) }
{
    append_number(point.x, into)?;
    append_number(point.y, into)?;
    append_number(point.z, into)
}

fn append_points(points: &[Point], into: &mut Vec<u8>) -> Result<(), AllocError>
    ensures { OnOk result (into.new.items ≡ into.old.items ++ following (map dec_text (flat_map coordinates points.now))) }
{
    for point in points {
        append_point(point, into)?;
    }
    Ok(())
}

fn append_code(code: u32, into: &mut Vec<u8>) -> Result<(), AllocError>
    ensures { OnOk result (into.new.items ≡ into.old.items ++ 32 ∷ decimal code) }
{
    append_word(Buffer::new().format(code).as_bytes(), into)
}

#[tactic(auto, unfolding(ld_line::specs::Printing::direct_text))]
fn append_direct(value: u32, into: &mut Vec<u8>) -> Result<(), AllocError>
    ensures { OnOk result (into.new.items ≡ into.old.items ++ 32 ∷ direct_text value) }
{
    let [a, b, c, d, e, f] = six_hex(value);
    into.extend_from_slice(&[b' ', b'0', b'x', b'2', a, b, c, d, e, f])
}

// A colour behind a space; an edge colour by its red, green and blue.
fn append_colour(colour: Colour, table: &Table, into: &mut Vec<u8>) -> Result<(), AllocError>
    ensures { OnOk result (into.new.items ≡ into.old.items ++ 32 ∷ written_colour (counting table.now) colour) }
{
    match colour {
        Colour::Main => into.extend_from_slice(b" 16"),
        Colour::Edge => into.extend_from_slice(b" 24"),
        Colour::Code(code) => append_code(code, into),
        Colour::EdgeOf(code) => {
            append_direct(table.rgb(Colour::EdgeOf(code)).unwrap_or(0), into)
        }
        Colour::Direct(value) => append_direct(value, into),
    }
}

// The points of a clockwise face are turned round.
fn written_points(kind: Kind, winding: Winding, points: [Point; 4]) -> [Point; 4]
    ensures { take (points_in kind) result ≡ written_points kind winding points }
{
    let [a, b, c, d] = points;
    match (kind, winding) {
        (Kind::Tri, Winding::Cw) => [c, b, a, d],
        (Kind::Quad, Winding::Cw) => [d, c, b, a],
        _ => [a, b, c, d],
    }
}

// A line of type 2 to 5.
#[tactic(auto, using(crate::proofs::Texts::one_line))]
pub(crate) fn append_drawn(
    kind: Kind,
    winding: Winding,
    colour: Colour,
    points: [Point; 4],
    table: &Table,
    into: &mut Vec<u8>,
) -> Result<(), AllocError>
    ensures { OnOk result (into.new.items ≡ into.old.items ++ lines_text (drawn_words (counting table.now) kind winding colour points ∷ [])) }
{
    let written = written_points(kind, winding, points);
    into.extend_from_slice(kind_word(kind))?;
    append_colour(colour, table, into)?;
    append_points(&written[..kind.points()], into)?;
    into.extend_from_slice(b"\r\n")
}
