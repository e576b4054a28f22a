// An entry that is a plan: the set that it makes, and what it sends.
#![tactic(auto)]

mod taking;

pub use taking::plan;
