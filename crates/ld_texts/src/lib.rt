//! The files that are known: their numbers, their lines, the limits on them, and edits.
//!
//! [`Texts::prepare_file`] and [`Texts::commit`] make a file known. [`Texts::apply`] makes an
//! [`Edit`] of known files; [`Texts::prepare`] takes its memory first, and [`Texts::commit`] can't
//! fail.
//!
//! The tests stand in `ld_cmd`, in `src/tests/edits.rt`.
#![tactic(auto)]

mod change;
mod changing;
mod edit;
mod ids;
mod laws;
mod preparing;
mod ready;
mod text;
mod texts;

pub use change::{Change, LearnError, Over, Turned};
pub use edit::{Edit, EditRefusal, PrepareError};
pub use laws::{block_law, edit_law, learning_law, line_law, number_law, ready_law};
pub use ready::Ready;
pub use texts::Texts;
