//! The outside of the toolkit: where files come from and where output goes.
//!
//! A [`Shelf`] gives files ([`Shelf::fetch`]) and a [`Sink`] takes bytes ([`Sink::put`]).
//! [`SureShelf`] and [`SureSink`] work in memory and never fail, [`MemShelf`] and [`MemSink`] fail
//! the calls that they were told to fail, and [`OsShelf`] and [`StdSink`] are the disk and standard
//! output.
//!
//! The tests stand in `src/tests.rt`.
#![tactic(auto)]

mod mem_shelf;
mod mem_sink;
mod os_shelf;
mod path;
mod shelf;
mod sink;
mod std_sink;
mod sure_shelf;
mod sure_sink;
#[cfg(test)]
mod tests;
mod whole;

pub use mem_shelf::MemShelf;
pub use mem_sink::MemSink;
pub use os_shelf::OsShelf;
pub use shelf::{FetchError, Fetched, Place, Shelf};
pub use sink::{PutError, Sink};
pub use std_sink::StdSink;
pub use sure_shelf::SureShelf;
pub use sure_sink::SureSink;
