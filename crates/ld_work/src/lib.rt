//! The expansion of texts over what is kept of others.
//!
//! [`expand_text`] gives a text's expansion by itself, taking the kept expansion of each low text that
//! it refers to; [`expand_within`] gives it up where it has more entries than there is room for. Lines
//! are read through a `Reader`, which counts them. [`fill`] keeps the expansions of what a root reaches,
//! by as many workers as it is lent readers. [`tint`] brings entries into a colour.
//!
//! The tests stand in `src/tests.rt`.
#![tactic(auto)]

mod bounds;
mod carrying;
mod crew;
mod cursor;
mod desk;
mod expanding;
mod filling;
mod gate;
mod lent;
mod line;
mod parsed;
mod rounds;
mod seen;
mod stale;
mod taking;
#[cfg(test)]
mod tests;
mod text;
mod tinting;

pub use bounds::Bounds;
pub use filling::fill;
pub use gate::{Gate, OpenGate};
pub use text::{Room, expand_text, expand_within};
pub use tinting::tint;
