// A telegram that was made once, copied into a buffer with an organisation code and a number of its own.
#![tactic(auto)]

mod copying;

pub use copying::{put_form, put_number};
