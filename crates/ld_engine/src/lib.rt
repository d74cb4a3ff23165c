//! Questions about the texts of a model: files are learnt by what the model reaches, and answered
//! by recursive expansion.
//!
//! A [`Workspace`] is opened with [`Limits`] ([`Workspace::open`]). It loads a model's file
//! ([`Workspace::load`]), answers a root over a shelf ([`Workspace::answer`]), and edits the texts
//! ([`Workspace::edit`]).
//!
//! The tests stand in `ld_cmd`, in `src/tests/limits.rt` and in the tables of worked models beside
//! it.
#![tactic(auto)]

mod answering;
mod asking;
mod carrying;
mod editing;
mod expand;
mod fetching;
mod find;
mod going;
mod laws;
mod learning;
mod limits;
mod loading;
mod met;
mod moving;
mod reading;
mod root;
mod seen;
mod stepping;
mod workspace;

pub use asking::{Answer, AnswerError};
pub use editing::EditError;
pub use laws::{first_law, learnt_law, main_law, missing_law, root_law, steps_law};
pub use limits::{Limits, OpenError};
pub use loading::LoadError;
pub use workspace::Workspace;
