// Records: their bytes in a lent buffer.
#![tactic(auto)]

mod prepared;
mod writer;

pub use writer::{put, put_to};
