// Document 01, "The search", propagation over lent buffers: what a clause says, the clauses of each literal, the trail, the number of unmet clauses, and forced
// literals made true.
#![tactic(auto)]

mod assignment;
mod clause;
mod formula;
mod holders;
mod links;
mod marks;
mod propagate;
mod trail;

pub use assignment::Assignment;
pub use clause::number;
pub use formula::Formula;
pub use holders::Holders;
pub use links::link;
pub use marks::{Second, assign, back};
pub use propagate::Conflict;
pub use trail::{FIRST, entry, noted};
