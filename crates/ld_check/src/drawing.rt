// What lines draw, as keys of a set.
ghost use Rattle.std.specs.Prelude.{◌≡◌, [], IfOk, OnOk};
ghost use Rattle.ld_check.specs.Inside.Drawn.{DrawsLine, HasDrawn, IsRepeated, drawing_of, same_drawing};
ghost use Rattle.ld_check.specs.declared.drawing.Drawing.{Drawing as SpecDrawing};

use crate::geometry::point_law;
use ld_line::{Kind, Line};
use ld_num::Point;
use std::alloc::{AllocError, Global};
use std::collections::HashSet;
use std::hash::Hash;

// What a line of type 2 to 5 draws. Its kind is left out of the hash, since kinds have none.
#[derive(Clone, Copy, PartialEq, Eq)]
#[derive_where(Hash)]
pub(crate) struct Drawing {
    #[derive_where(skip(Hash))]
    kind: Kind,
    colour: u32,
    points: [Point; 4],
}

// Named where drawings are moved: the prover looks for the types inside them among those named.
const NO_POINTS: [Point; 0] = [];

// What lines drew.
#[derive(Drop)]
pub(crate) struct Drawings {
    seen: HashSet<Drawing>,
}

impl Drawings {
    pub(crate) fn new(alloc: Global) -> Drawings
        ensures { HasDrawn result [] }
    {
        Drawings {
            seen: HashSet::new(alloc),
        }
    }

    // Notes what the line draws. Whether an earlier line drew the same.
    pub(crate) fn draw(&mut self, line: &Line) -> Result<bool, AllocError>
        ensures repeated { IfOk result (λ is_repeated. IsRepeated self.old line.now is_repeated) }
        ensures drawn { OnOk result (DrawsLine line.now self.old self.new) }
    {
        let _: [Point; 0] = NO_POINTS;
        drawing_law();
        let Some(drawing) = drawing_of(line) else {
            return Ok(false);
        };
        Ok(!self.seen.insert(drawing)?)
    }
}

fn drawing_of(line: &Line) -> Option<Drawing>
    ensures { result ≡ drawing_of line.now }
{
    match line {
        Line::Draw {
            kind,
            colour,
            points,
        } => Some(Drawing {
            kind: *kind,
            colour: *colour,
            points: copied(points),
        }),
        _ => None,
    }
}

fn copied(points: &[Point; 4]) -> [Point; 4]
    ensures { result ≡ points.now }
{
    let [a, b, c, d] = points;
    [*a, *b, *c, *d]
}

// Drawings are equal where lines of them draw the same.
fn drawing_law()
    ensures { (drawing other : SpecDrawing) → ⟦<Drawing as PartialEq>⟧.eq drawing other ≡ same_drawing drawing other }
{
    point_law();
}
