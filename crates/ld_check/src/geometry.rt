// Points, triangles and quads that are no good (File Format 1.0.2, "Line Type 3" and "Line Type 4").
ghost use Rattle.std.specs.Prelude.{◌≡◌, int_lt, pos};
ghost use Rattle.std.specs.List.{list_all};
ghost use Rattle.ld_check.specs.Geometry.{corner_turns, ends_of, has_equal, has_equal_points, is_bent, is_bent_quad, is_even, is_straight, is_straight_triangle, is_uneven_quad, same_point, turns};
ghost use Rattle.ld_num.specs.declared.point.Point.{Point as SpecPoint};

use crate::vector::{PlaneVector, Side};
use ld_line::{Kind, Line};
use ld_num::Point;

// How far from its plane a quad's fourth corner may lie, in millionths.
const TOLERANCE: u128 = 10_000;

pub(crate) fn has_equal_points(line: &Line) -> bool
    ensures { result ≡ has_equal_points line.now }
{
    match line {
        Line::Draw { kind, points, .. } => has_equal(&points[..ends_of(*kind)]),
        _ => false,
    }
}

// The control points of an optional line bound nothing.
fn ends_of(kind: Kind) -> usize
    ensures { result ≡ ends_of kind }
{
    match kind {
        Kind::Line2 | Kind::Opt => 2,
        Kind::Tri => 3,
        Kind::Quad => 4,
    }
}

fn has_equal(points: &[Point]) -> bool
    ensures { result ≡ has_equal points.now }
{
    point_law();
    let mut rest = points;
    while let Some((point, more)) = rest.split_first() {
        if more.contains(point) {
            return true;
        }
        rest = more;
    }
    false
}

// Points are equal where their coordinates are.
pub(crate) fn point_law()
    ensures { (p q : SpecPoint) → ⟦<Point as PartialEq>⟧.eq p q ≡ same_point p q }
{}

pub(crate) fn is_straight_triangle(line: &Line) -> bool
    ensures { result ≡ is_straight_triangle line.now }
{
    match line {
        Line::Draw {
            kind: Kind::Tri,
            points,
            ..
        } => is_straight(points),
        _ => false,
    }
}

fn is_straight(points: &[Point; 4]) -> bool
    ensures { result ≡ is_straight points.now }
{
    let ab = Side::between(&points[0], &points[1]);
    let ac = Side::between(&points[0], &points[2]);
    ab.cross(&ac).is_null()
}

pub(crate) fn is_bent_quad(line: &Line) -> bool
    ensures { result ≡ is_bent_quad line.now }
{
    match line {
        Line::Draw {
            kind: Kind::Quad,
            points,
            ..
        } => is_bent(points),
        _ => false,
    }
}

fn is_bent(points: &[Point; 4]) -> bool
    ensures { result ≡ is_bent points.now }
{
    let ab = Side::between(&points[0], &points[1]);
    let ac = Side::between(&points[0], &points[2]);
    let ad = Side::between(&points[0], &points[3]);
    let normal = ab.cross(&ac);
    normal.dot(&ad).unsigned_abs() > TOLERANCE * normal.extent()
}

pub(crate) fn is_uneven_quad(line: &Line) -> bool
    ensures { result ≡ is_uneven_quad line.now }
{
    match line {
        Line::Draw {
            kind: Kind::Quad,
            points,
            ..
        } => !is_even(&corner_turns(points)),
        _ => false,
    }
}

fn corner_turns(points: &[Point; 4]) -> [i128; 4]
    ensures { result ≡ corner_turns points.now }
{
    let ac = Side::between(&points[0], &points[2]);
    let bd = Side::between(&points[1], &points[3]);
    let normal = ac.cross(&bd);
    let ab = Side::between(&points[0], &points[1]).flattened(&normal);
    let bc = Side::between(&points[1], &points[2]).flattened(&normal);
    let cd = Side::between(&points[2], &points[3]).flattened(&normal);
    let da = Side::between(&points[3], &points[0]).flattened(&normal);
    turns(&ab, &bc, &cd, &da)
}

fn turns(ab: &PlaneVector, bc: &PlaneVector, cd: &PlaneVector, da: &PlaneVector) -> [i128; 4]
    ensures { result ≡ turns ab.now bc.now cd.now da.now }
{
    [da.turn(ab), ab.turn(bc), bc.turn(cd), cd.turn(da)]
}

fn is_even(turns: &[i128]) -> bool
    ensures { result ≡ is_even turns.now }
{
    are_above_zero(turns) || are_below_zero(turns)
}

fn are_above_zero(turns: &[i128]) -> bool
    ensures { result ≡ list_all (λ turn. int_lt (pos 0) turn) turns.now }
{
    turns.iter().all(|turn| *turn > 0)
}

fn are_below_zero(turns: &[i128]) -> bool
    ensures { result ≡ list_all (λ turn. int_lt turn (pos 0)) turns.now }
{
    turns.iter().all(|turn| *turn < 0)
}
