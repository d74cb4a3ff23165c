//! Kept expansions of texts, within a budget of blocks that is taken at opening.
//!
//! [`Cache::new`] takes the blocks, [`Cache::keep`] keeps the expansion of a text where they suffice,
//! [`Cache::get`] lends it as [`Kept`], and [`Cache::forget`] forgets those that an edit changed.
//!
//! The tests stand in `src/tests.rt`.
#![tactic(auto)]

mod cache;
mod kept;
mod laws;
mod slot;
#[cfg(test)]
mod tests;

pub use cache::Cache;
pub use kept::Kept;
pub use laws::graph_law;
