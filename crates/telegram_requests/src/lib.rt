// What a desk's telegram asks of the set, or its refusal: 8 to 10.
#![tactic(auto)]

mod request;

pub use request::{Asked, LineRequest, code_of, read_request};
