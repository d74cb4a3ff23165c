//! What is wrong with a part: its header, its lines, and the planes and points of what it draws.
//!
//! [`check`] gives each line and rule that holds there. The rules are defined in `specs/`, by
//! subject as the files here.
//!
//! The tests stand in `ld_cmd`, in `src/tests/findings.rt`.
#![tactic(auto)]

mod checking;
mod drawing;
mod finding;
mod geometry;
mod header;
mod laws;
mod order;
mod passed;
mod said;
mod vector;

pub use checking::check;
pub use finding::Finding;
pub use laws::findings_law;
