//! Lists of items in blocks of 256, of which a fixed number is taken once: what is stored is given
//! back block by block, and storing takes no memory.
//!
//! [`Pool::new`] takes the blocks, [`Pool::store`] stores a list as a [`Run`], and
//! [`Pool::give_back`] frees it. [`Pool::read`] and [`Pool::copy_out`] give what a run holds.
//!
//! The tests stand in `src/tests.rt`.
#![tactic(auto)]

mod blocks;
mod pool;
#[cfg(test)]
mod tests;

pub use pool::{Pool, Run};
