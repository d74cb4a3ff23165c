//! The printed texts of an LDraw model's expansion: its entries and steps, its faults and its parts
//! list; and the findings on a part.
//!
//! [`print_entries`], [`print_steps`], [`print_fault`], [`print_parts`] and [`print_findings`]
//! append lines to a text. [`parts_list`] counts the parts of an answer. [`printed_file`] gives a
//! file as these lines have it.
//!
//! The tests stand in `ld_cmd`, in `src/tests/printed.rt`.
#![tactic(auto)]

mod entry;
mod fault;
mod findings;
mod parts;
mod pieces;
mod steps;
mod undoing;

pub use entry::{print_entries, print_entry};
pub use fault::print_fault;
pub use findings::print_findings;
pub use parts::{PartCount, parts_list, print_parts};
pub use pieces::printed_file;
pub use steps::print_steps;
