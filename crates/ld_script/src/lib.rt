//! Scripts: lines of edits and queries, which are answered one after another.
//!
//! [`read_script`] gives the [`Command`] of each line. `ld_cmd` answers them.
//!
//! The tests stand in `ld_cmd`, in `src/tests/scripts.rt`.
#![tactic(auto)]

mod command;
mod fields;
mod line;
mod script;

pub use command::{Command, Query, Root};
pub use script::read_script;
