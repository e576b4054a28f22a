// The writer of the telegrams: `write` checks a message, and writes it if it may be sent and there is room.
#![tactic(auto)]

mod writer;

pub use writer::write;
