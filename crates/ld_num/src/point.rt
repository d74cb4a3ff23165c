use crate::Dec;

/// A point or a direction, in LDraw units.
#[derive(Clone, Copy, Debug, PartialEq, Eq, Hash)]
pub struct Point {
    pub x: Dec,
    pub y: Dec,
    pub z: Dec,
}

/// Where a sub-file reference puts a file: the point `x y z` in LDraw units, and the matrix `a b c / d e f / g h i`
/// (File Format 1.0.2, "Line Type 1").
#[derive(Clone, Copy, Debug, PartialEq, Eq)]
pub struct Placement {
    pub x: Dec,
    pub y: Dec,
    pub z: Dec,
    pub a: Dec,
    pub b: Dec,
    pub c: Dec,
    pub d: Dec,
    pub e: Dec,
    pub f: Dec,
    pub g: Dec,
    pub h: Dec,
    pub i: Dec,
}
