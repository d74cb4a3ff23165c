//! The steps of an LDraw text: where each begins and ends, and how the model is turned in it.
//!
//! [`steps_of`] marks the steps of a text's lines. [`part_law`] says that their ranges cover the
//! entries of an answer.
//!
//! The tests stand in `ld_cmd`, in `src/tests/stepping.rt`.
#![tactic(auto)]

mod laws;
mod marking;
mod step;
mod view;

pub use laws::{part_law, step_laws};
pub use marking::steps_of;
pub use step::{StepMark, StepPart, Turn};
