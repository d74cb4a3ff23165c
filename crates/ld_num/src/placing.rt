// Placing points: exact sums of products in 128 bits, each rounded once.
ghost use Rattle.std.specs.Prelude.{◌≡◌, ◌^◌, ◌*◌, ◌+◌, ◌≤◌, pos, ◌+ℤ◌, ◌*ℤ◌, neg_ℤ, unsigned_abs, if◌then◌else◌, Some, None};
ghost use Rattle.ld_num.specs.Number.{is_in_range};
ghost use Rattle.ld_num.specs.Placing.{determinant, exact, fixed, is_mirrored, is_singular, minor, moved};

use crate::{Dec, Placement, Point};

// The least size out of range, in units of 10^-12 and half a millionth more.
const TOO_FAR: u128 = 1_000_000_000_001_000_000;

/// Moves a point by a placement: with the point `u v w`, to `a*u + b*v + c*w + x`, `d*u + e*v + f*w + y` and
/// `g*u + h*v + i*w + z` (File Format 1.0.2, "Line Type 1").
///
/// Each coordinate is computed exactly and then rounded once to millionths, ties away from zero.
/// The answer is `None` exactly where a rounded coordinate's size is above 10^12 millionths.
#[tactic(auto, unfolding(crate::specs::Placing::moved))]
#[inline(always)]
pub fn place(by: &Placement, point: Point) -> Option<Point>
    ensures { result ≡ moved by.now point }
{
    let x = coordinate(by.a, by.b, by.c, by.x, &point)?;
    let y = coordinate(by.d, by.e, by.f, by.y, &point)?;
    let z = coordinate(by.g, by.h, by.i, by.z, &point)?;
    Some(Point { x, y, z })
}

#[inline]
fn coordinate(a: Dec, b: Dec, c: Dec, offset: Dec, point: &Point) -> Option<Dec>
    ensures { let value = fixed (exact a b c offset point.now) in result ≡ (if is_in_range value then Some value else None) }
{
    rounded(exact(a, b, c, offset, point))
}

// In units of 10^-12.
#[inline]
fn exact(a: Dec, b: Dec, c: Dec, offset: Dec, point: &Point) -> i128
    ensures value { result ≡ exact a b c offset point.now }
    ensures small { unsigned_abs result ≤ 4 * 10 ^ 24 }
{
    let first = product(a, point.x);
    let second = product(b, point.y);
    let third = product(c, point.z);
    sum(sum(sum(first, second), third), raised(offset))
}

// A number in units of 10^-12.
fn raised(number: Dec) -> i128
    ensures value { result ≡ number *ℤ pos (10 ^ 6) }
    ensures small { unsigned_abs result ≤ 10 ^ 18 }
{
    i128::from(number.millionths() * 1_000_000)
}

fn sum(a: i128, b: i128) -> i128
    requires first { unsigned_abs a ≤ 10 ^ 37 }
    requires second { unsigned_abs b ≤ 10 ^ 37 }
    ensures value { result ≡ a +ℤ b }
    ensures small { unsigned_abs result ≤ unsigned_abs a + unsigned_abs b }
{
    a + b
}

fn product(a: Dec, b: Dec) -> i128
    ensures value { result ≡ a *ℤ b }
    ensures small { unsigned_abs result ≤ 10 ^ 24 }
{
    i128::from(a.millionths()) * i128::from(b.millionths())
}

// What is in units of 10^-12, in millionths. All that is in range fits 64 bits before it is divided.
#[inline]
fn rounded(value: i128) -> Option<Dec>
    requires { unsigned_abs value ≤ 4 * 10 ^ 24 }
    ensures { result ≡ (if is_in_range (fixed value) then Some (fixed value) else None) }
{
    let above = value.unsigned_abs() + 500_000;
    if above >= TOO_FAR {
        return None;
    }
    let size = (above as u64 / 1_000_000) as i64;
    Some(Dec::from_millionths(if value < 0 { -size } else { size }))
}

/// Whether a placement mirrors: whether the determinant of its matrix is below zero.
#[tactic(auto, unfolding(crate::specs::Placing::is_mirrored))]
pub fn mirrored(by: &Placement) -> bool
    ensures { result ≡ is_mirrored by.now }
{
    determinant(by) < 0
}

/// Whether the matrix of a placement is singular: whether its determinant is zero.
#[tactic(auto, unfolding(crate::specs::Placing::is_singular))]
pub fn singular(by: &Placement) -> bool
    ensures { result ≡ is_singular by.now }
{
    determinant(by) == 0
}

fn determinant(by: &Placement) -> i128
    ensures { result ≡ determinant by.now }
{
    let first = by_minor(by.a, minor(by.e, by.f, by.h, by.i));
    let second = by_minor(by.b, minor(by.d, by.f, by.g, by.i));
    let third = by_minor(by.c, minor(by.d, by.e, by.g, by.h));
    sum(sum(first, negative(second)), third)
}

fn minor(a: Dec, b: Dec, c: Dec, d: Dec) -> i128
    ensures value { result ≡ minor a b c d }
    ensures small { unsigned_abs result ≤ 2 * 10 ^ 24 }
{
    sum(product(a, d), negative(product(b, c)))
}

fn negative(number: i128) -> i128
    requires { unsigned_abs number ≤ 10 ^ 37 }
    ensures value { result ≡ neg_ℤ number }
    ensures small { unsigned_abs result ≤ unsigned_abs number }
{
    -number
}

fn by_minor(number: Dec, minor: i128) -> i128
    requires { unsigned_abs minor ≤ 2 * 10 ^ 24 }
    ensures value { result ≡ number *ℤ minor }
    ensures small { unsigned_abs result ≤ 2 * 10 ^ 36 }
{
    times(i128::from(number.millionths()), minor)
}

fn times(a: i128, b: i128) -> i128
    requires first { unsigned_abs a ≤ 10 ^ 12 }
    requires second { unsigned_abs b ≤ 2 * 10 ^ 24 }
    ensures value { result ≡ a *ℤ b }
    ensures small { unsigned_abs result ≤ 2 * 10 ^ 36 }
{
    a * b
}
