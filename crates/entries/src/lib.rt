// Entries, read from bytes. What a plan's bytes make is a crate of its own, plans.
#![tactic(auto)]

mod entry;

pub use entry::read_entry;
