// Vectors of plane geometry, exactly: sides are below 2^42, and their triple products fit 128 bits.
ghost use Rattle.std.specs.Prelude.{◌≡◌, ◌^◌, ◌*◌, ◌+◌, ◌≤◌, ◌*ℤ◌, ◌-ℤ◌, ◌+ℤ◌, ◌&&◌, nat_le, unsigned_abs};
ghost use Rattle.ld_check.specs.Vectors.{cross, dot, extent, flat_cross, flattened, is_null, toward, turn};

use ld_num::{Dec, Point};
use std::marker::Model;

// A vector from one point to another, in millionths.
#[derive(Drop)]
pub(crate) struct Side {
    x: i64,
    y: i64,
    z: i64,
}

impl Model for Side {
    ghost use Rattle.std.specs.Prelude.{◌^◌, ◌*◌, ◌≤◌, unsigned_abs};
    ghost use Rattle.ld_check.specs.Vectors.{Vector};

    ghost Value = { Vector };

    ghost view = { λ side. record { x = side.x; y = side.y; z = side.z } };

    ghost invariant = { λ side. (unsigned_abs side.x ≤ 2 * 10 ^ 12) × (unsigned_abs side.y ≤ 2 * 10 ^ 12) × (unsigned_abs side.z ≤ 2 * 10 ^ 12) };
}

// The cross product of two sides.
#[derive(Drop)]
pub(crate) struct Normal {
    x: i128,
    y: i128,
    z: i128,
}

impl Model for Normal {
    ghost use Rattle.std.specs.Prelude.{◌^◌, ◌*◌, ◌≤◌, unsigned_abs};
    ghost use Rattle.ld_check.specs.Vectors.{Vector};

    ghost Value = { Vector };

    ghost view = { λ normal. record { x = normal.x; y = normal.y; z = normal.z } };

    ghost invariant = { λ normal. (unsigned_abs normal.x ≤ 8 * 10 ^ 24) × (unsigned_abs normal.y ≤ 8 * 10 ^ 24) × (unsigned_abs normal.z ≤ 8 * 10 ^ 24) };
}

// A side without one of its coordinates.
#[derive(Drop)]
pub(crate) struct PlaneVector {
    x: i64,
    y: i64,
}

impl Model for PlaneVector {
    ghost use Rattle.std.specs.Prelude.{◌^◌, ◌*◌, ◌≤◌, unsigned_abs};
    ghost use Rattle.ld_check.specs.Vectors.{PlaneVector};

    ghost Value = { PlaneVector };

    ghost view = { λ vector. record { x = vector.x; y = vector.y } };

    ghost invariant = { λ vector. (unsigned_abs vector.x ≤ 2 * 10 ^ 12) × (unsigned_abs vector.y ≤ 2 * 10 ^ 12) };
}

impl Side {
    pub(crate) fn between(from: &Point, to: &Point) -> Side
        ensures { result ≡ toward from.now to.now }
    {
        Side {
            x: distance(from.x, to.x),
            y: distance(from.y, to.y),
            z: distance(from.z, to.z),
        }
    }

    pub(crate) fn cross(&self, other: &Side) -> Normal
        ensures { result ≡ cross self.now other.now }
    {
        Normal {
            x: flat_cross(self.y, self.z, other.y, other.z),
            y: flat_cross(self.z, self.x, other.z, other.x),
            z: flat_cross(self.x, self.y, other.x, other.y),
        }
    }

    // Without the coordinate in which the normal is greatest, the first of equal ones.
    pub(crate) fn flattened(&self, normal: &Normal) -> PlaneVector
        ensures { result ≡ flattened normal.now self.now }
    {
        let (x, y, z) = (
            normal.x.unsigned_abs(),
            normal.y.unsigned_abs(),
            normal.z.unsigned_abs(),
        );
        if are_at_most(x, y, z) {
            return PlaneVector {
                x: self.y,
                y: self.z,
            };
        }
        if z <= y {
            return PlaneVector {
                x: self.x,
                y: self.z,
            };
        }
        PlaneVector {
            x: self.x,
            y: self.y,
        }
    }
}

impl Normal {
    pub(crate) fn is_null(&self) -> bool
        ensures { result ≡ is_null self.now }
    {
        self.x == 0 && self.y == 0 && self.z == 0
    }

    // The sum of the sizes of the components.
    pub(crate) fn extent(&self) -> u128
        ensures value { result ≡ extent self.now }
        ensures small { result ≤ 24 * 10 ^ 24 }
    {
        self.x.unsigned_abs() + self.y.unsigned_abs() + self.z.unsigned_abs()
    }

    pub(crate) fn dot(&self, side: &Side) -> i128
        ensures value { result ≡ dot self.now side.now }
        ensures small { unsigned_abs result ≤ 48 * 10 ^ 36 }
    {
        let x = volume(self.x, side.x);
        let y = volume(self.y, side.y);
        let z = volume(self.z, side.z);
        sum(sum(x, y), z)
    }
}

impl PlaneVector {
    // How a way turns from this side to the next one.
    pub(crate) fn turn(&self, next: &PlaneVector) -> i128
        ensures { result ≡ turn self.now next.now }
    {
        flat_cross(self.x, self.y, next.x, next.y)
    }
}

fn are_at_most(bound: u128, first: u128, second: u128) -> bool
    ensures { result ≡ (nat_le first bound && nat_le second bound) }
{
    first <= bound && second <= bound
}

fn distance(from: Dec, to: Dec) -> i64
    ensures value { result ≡ to -ℤ from }
    ensures small { unsigned_abs result ≤ 2 * 10 ^ 12 }
{
    to.millionths() - from.millionths()
}

fn flat_cross(ux: i64, uy: i64, vx: i64, vy: i64) -> i128
    requires ux { unsigned_abs ux ≤ 2 * 10 ^ 12 }
    requires uy { unsigned_abs uy ≤ 2 * 10 ^ 12 }
    requires vx { unsigned_abs vx ≤ 2 * 10 ^ 12 }
    requires vy { unsigned_abs vy ≤ 2 * 10 ^ 12 }
    ensures value { result ≡ flat_cross ux uy vx vy }
    ensures small { unsigned_abs result ≤ 8 * 10 ^ 24 }
{
    difference(area(ux, vy), area(uy, vx))
}

fn difference(a: i128, b: i128) -> i128
    requires a { unsigned_abs a ≤ 4 * 10 ^ 24 }
    requires b { unsigned_abs b ≤ 4 * 10 ^ 24 }
    ensures value { result ≡ a -ℤ b }
    ensures small { unsigned_abs result ≤ 8 * 10 ^ 24 }
{
    a - b
}

fn area(a: i64, b: i64) -> i128
    requires a { unsigned_abs a ≤ 2 * 10 ^ 12 }
    requires b { unsigned_abs b ≤ 2 * 10 ^ 12 }
    ensures value { result ≡ a *ℤ b }
    ensures small { unsigned_abs result ≤ 4 * 10 ^ 24 }
{
    i128::from(a) * i128::from(b)
}

fn volume(area: i128, side: i64) -> i128
    requires area { unsigned_abs area ≤ 8 * 10 ^ 24 }
    requires side { unsigned_abs side ≤ 2 * 10 ^ 12 }
    ensures value { result ≡ area *ℤ side }
    ensures small { unsigned_abs result ≤ 16 * 10 ^ 36 }
{
    times(area, i128::from(side))
}

fn times(a: i128, b: i128) -> i128
    requires a { unsigned_abs a ≤ 8 * 10 ^ 24 }
    requires b { unsigned_abs b ≤ 2 * 10 ^ 12 }
    ensures value { result ≡ a *ℤ b }
    ensures small { unsigned_abs result ≤ 16 * 10 ^ 36 }
{
    a * b
}

fn sum(a: i128, b: i128) -> i128
    requires a { unsigned_abs a ≤ 32 * 10 ^ 36 }
    requires b { unsigned_abs b ≤ 16 * 10 ^ 36 }
    ensures value { result ≡ a +ℤ b }
    ensures small { unsigned_abs result ≤ unsigned_abs a + unsigned_abs b }
{
    a + b
}
