//! The words of the command line: what they ask for, by this project's own grammar, with the values
//! that `clap` reads.
//!
//! [`is_command`] tests words, and [`read_request`] gives the [`Request`] of words that are in the
//! grammar.
//!
//! The tests stand in `ld_cmd`, in `src/tests/requests.rt`.
#![tactic(auto)]

mod grammar;
mod listing;
mod read;
mod request;
mod value;

pub use grammar::{USAGE, is_command};
pub use listing::Listing;
pub use read::{given_words, read_request};
pub use request::{Options, Request, Task};
