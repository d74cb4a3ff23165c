//! The graph of references over known texts, by their numbers: how high each text stands, and which texts a
//! change alters.
//!
//! A [`Graph`] is made ready for each change of the texts by [`Graph::prepare`], which takes its memory, and
//! changed by [`Graph::commit`], which can't fail and answers the [`Dirty`] texts. A [`Reader`] reads texts
//! and counts the lines that it answers; [`resolve`] looks up a name by it.
#![tactic(auto)]

mod changes;
mod dirty;
mod graph;
mod laws;
mod linking;
mod links;
mod marks;
mod moving;
mod names;
mod node;
mod reader;
mod ready;
mod resolving;
mod rise;
#[cfg(test)]
mod tests;
mod up;

pub use dirty::Dirty;
pub use graph::Graph;
pub use laws::{clean_law, dirt_law, height_law, items_law, rise_law, turned_law};
pub use reader::Reader;
pub use ready::GraphReady;
pub use resolving::{Resolved, resolve};
