//! The text of an LDraw model without references, and what it means.
//!
//! [`inline`] writes the text of entries and steps. Its clause `means` says what the text expands
//! to, and [`answers_law`] that it may be asked with every answer.
//!
//! The tests stand in `src/tests.rt`.
#![tactic(auto)]

mod inlining;
mod laws;
mod ranges;
mod rotation;
#[cfg(test)]
mod tests;
mod words;

pub use inlining::{InlineError, inline};
pub use laws::answers_law;
