// The state of the line set and what entries ask of it: the types that its rules speak of.
#![tactic(auto)]

mod desks;
mod state;

pub use desks::{desk_at, desk_place};
pub use state::{
    Answer, Desk, Entry, LineSet, Link, LinkRequest, Refusal, Request, Size, bytes_written,
    refusal_number,
};
