//! Blocks of LDraw files of several models (MPD): a file cut into its blocks, and blocks joined to
//! a file.
//!
//! [`split`] cuts a file, [`text_of`] takes its first text alone, and [`join`] puts blocks
//! together.
//!
//! The tests stand in `ld_cmd`, in `src/tests/blocks.rt`.
#![tactic(auto)]

mod block;
mod cutting;
mod joining;
mod laws;
mod seen;

pub use block::Block;
pub use cutting::{split, text_of};
pub use joining::{JoinError, join};
pub use laws::{block_laws, join_law};
