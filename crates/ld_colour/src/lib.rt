//! What the colour words of LDraw texts mean, and how colours are inherited (File Format 1.0.2,
//! "Colours"); the table of a colour file (Colour Definition Language Extension).
//!
//! [`colour_of`] gives the colour of a colour word, [`edge`] its edge colour, and [`under`] a
//! colour where another one is current. [`Table::read`] reads a colour file, and [`Table::rgb`]
//! gives red, green and blue.
//!
//! The tests stand in `ld_entry`, in `src/tests/colours.rt` and `src/tests/tables.rt`.
#![tactic(auto)]

mod colour;
mod definition;
mod laws;
mod table;

pub use colour::{Colour, colour_of, edge, under};
pub use laws::{lawful_colours, under_laws};
pub use table::{Table, TableError};
