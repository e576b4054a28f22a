// Numbers that stand in bytes, and frames: a length in two bytes, and what it counts.
#![tactic(auto)]

mod bytes;
mod frame;

pub use bytes::{byte, word};
pub use frame::frame_size;
