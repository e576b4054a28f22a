// What an entry asks about one desk's link or one channel, or its refusal up to 11.
#![tactic(auto)]

mod request;

pub use request::asked_of;
