//! Lines of LDraw texts: how bytes are cut into lines, and what each line says.
//!
//! [`lines_of`] cuts bytes into lines, [`split_line`] one line after another without memory, and
//! [`read_line`] says what a line says. [`split_field`], [`read_colour`] and [`read_number`] read
//! its fields; [`block_line`] and [`header_line`] look at block lines and `!LDRAW_ORG` lines alone.
//! [`kind_word`] and [`six_hex`] give words of printed lines.
//! The laws say that printed lines are read as what they say.
//!
//! The tests stand in `ld_entry`, in `src/tests/lines.rt`.
#![tactic(auto)]

mod block;
mod colour;
mod cut;
mod digits;
mod field;
mod header;
mod laws;
mod line;
mod meta;
mod moved;
mod number;
mod printing;
mod read;

pub use block::block_line;
pub use colour::read_colour;
pub use cut::{lines_of, split_line, unmarked};
pub use digits::{read_digits, read_number};
pub use field::split_field;
pub use header::header_line;
pub use laws::{colour_law, draw_law, fields_law, lines_law, step_law};
pub use line::{Angles, BfcWord, BlockLine, Kind, Line, RotWord, Winding};
pub use moved::moved_reference;
pub use printing::{kind_word, six_hex};
pub use read::read_line;
