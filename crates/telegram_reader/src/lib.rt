// The reader of the telegrams: any bytes as a message under an organisation code, or a refusal.
#![tactic(auto)]

mod reader;

pub use reader::read;
