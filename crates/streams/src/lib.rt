// Standard input, frame by frame, and standard output, as any reader and writer. Text that waits is written before more is
// read, so that no answer waits for input. A read or a write that fails is given back, to be said on standard error.
#![tactic(auto)]

mod failure;
mod place;
mod reading;
mod writing;

pub use failure::{Failure, Stopped, say};
pub use place::Place;
pub use reading::{next, read_all};
pub use writing::write_out;
