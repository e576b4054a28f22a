// How an entry about one channel is judged: the refusals from 12 to 15, and 17, and whether a ring answer answers the ring.
#![tactic(auto)]

mod answer;
mod judging;

pub use answer::answers_ring;
pub use judging::{judge, may_use};
