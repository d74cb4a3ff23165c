//! The numbers of LDraw files, as whole millionths within a million units, and points that are
//! moved by them.
//!
//! [`read_dec`] and [`split_dec`] read numerals, [`print_dec`] prints them, and [`print_law`] says
//! that what is printed is read again. [`place`] moves a point by a placement; [`mirrored`] and
//! [`singular`] look at its matrix.
//!
//! The tests stand in `ld_entry`, in `src/tests/numbers.rt`.
#![tactic(auto)]

mod dec;
mod digits;
mod laws;
mod numeral;
mod placing;
mod point;
mod print;
mod read;
mod scale;

pub use dec::{Dec, NumError};
pub use laws::print_law;
pub use placing::{mirrored, place, singular};
pub use point::{Placement, Point};
pub use print::print_dec;
pub use read::{read_dec, split_dec};
