ghost use Rattle.std.specs.Prelude.{◌≡◌, ◌^◌, ◌≤◌, pos, unsigned_abs};

use std::marker::Model;

/// A number of LDraw units, or a part of a matrix, as a whole number of millionths.
/// Its size is at most 10^12 millionths, a million units.
#[derive(Clone, Copy, Debug, PartialEq, Eq, PartialOrd, Ord, Hash)]
pub struct Dec {
    millionths: i64,
}

impl Model for Dec {
    ghost use Rattle.std.specs.Prelude.{ℤ, ◌^◌, ◌≤◌, unsigned_abs};

    ghost Value = { ℤ };

    ghost view = { λ d. d.millionths };

    ghost invariant = { λ d. unsigned_abs d.millionths ≤ 10 ^ 12 };

    ghost inverse = { λ z. record { millionths = z } };
}

impl Dec {
    pub fn zero() -> Dec
        ensures { result ≡ pos 0 }
    {
        Dec { millionths: 0 }
    }

    pub(crate) fn from_millionths(millionths: i64) -> Dec
        requires { unsigned_abs millionths ≤ 10 ^ 12 }
        ensures { result ≡ millionths }
    {
        Dec { millionths }
    }

    /// The number in millionths.
    pub fn millionths(self) -> i64
        ensures value { result ≡ self }
        ensures in_range { unsigned_abs self ≤ 10 ^ 12 }
    {
        self.millionths
    }
}

/// Why bytes are no number.
#[derive(Clone, Copy, Debug, PartialEq, Eq)]
pub enum NumError {
    /// The bytes are no numeral.
    NotANumber,
    /// The numeral, rounded to millionths, has a size above a million.
    OutOfRange,
}
