//! The command `ldraw`: answers about LDraw models, read from files and written to standard output.
//!
//! [`run`] answers words over any shelf and any sink, and ends with a [`Status`]; `main` calls it
//! over the system.
//!
//! The tests stand in `src/tests.rt` and `src/tests/`, with those of eight other crates.
//! `src/tests/library.rt` uses the crates as a library.
#![tactic(auto)]

mod answer;
mod check;
mod folders;
mod generator;
mod inputs;
mod laws;
mod lines;
mod made;
mod make;
mod model;
mod os;
mod put;
mod query;
mod replay;
mod reply;
mod run;
mod script;
mod session;
mod status;
#[cfg(test)]
mod tests;

pub use laws::{ending_law, query_law};
pub use run::run;
pub use status::Status;
use std::process::ExitCode;

fn main(rt: HostRuntime) -> ExitCode {
    ExitCode::from(os::answer(rt).number())
}
