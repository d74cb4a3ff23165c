//! What an LDraw text expands to: entries and faults, what a reference makes of an entry, and the
//! definition of recursive expansion with its laws.
//!
//! [`carry`] brings an [`Entry`] through a reference ([`Outer`]). The definition of expansion
//! stands in `specs/`; the laws are functions whose clauses say what it means. No code here expands
//! a model: `ld_engine` does.
//!
//! The tests stand in `src/tests.rt`; those of the five crates below stand in `src/tests/`.
#![tactic(auto)]

mod carrying;
mod entry;
mod laws;
#[cfg(test)]
mod tests;

pub use carrying::carry;
pub use entry::{Entry, Expansion, Fault, Outer, Source, What};
pub use laws::{
    action_law, agreement_law, carry_laws, count_law, cut_laws, depth_law, ends_laws, found_law,
    height_laws, lawful_law, line_ends_law, line_laws, link_law, lower_law, maps_law, part_law,
    reached_law, renaming_law, reuse_law, standing_law, target_law, tint_law, walk_laws, way_law,
};
