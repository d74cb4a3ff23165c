//! Back face culling as it stands at each line of an LDraw text, and what references pass down of
//! it: the Back Face Culling (BFC) Language Extension. No call takes memory.
//!
//! [`start`] and [`next`] give the state before each line, [`face`] how a face is culled in it.
//! [`below_of`] gives what a reference passes down, [`with`] what two references do together.
//!
//! The tests stand in `ld_entry`, in `src/tests/states.rt`.
#![tactic(auto)]

mod culling;
mod laws;
mod passing;

pub use culling::{Cert, State, face, next, start};
pub use laws::{quiet_line_law, state_laws, with_laws};
pub use passing::{Below, below_of, with};
