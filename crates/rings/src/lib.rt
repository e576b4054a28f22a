// The line rules on a mobile that rings one desk, as code.
#![tactic(auto)]

mod rings;

pub use rings::{ring, ring_answer, unanswered};
