// Whether a ring answer matches the ring.
ghost use Rattle.std.specs.Prelude.{◌≡◌};
ghost use Rattle.line_rules.specs.Turns.{told_of_call};
ghost use Rattle.set_rules.specs.SetRules.{caller_of, answers_ring};

use channel::{Call, Channel};
use telegram::{Number, Ring};

// Whether a desk is told of a call.
fn is_told(d: u8, call: Option<Call>) -> bool
    ensures { result ≡ told_of_call d call }
{
    match call {
        None => false,
        Some(open) => channel::is_in(d, open.recipients),
    }
}

// The digits of the number that called.
fn caller_of(call: Option<Call>) -> u32
    ensures { result ≡ caller_of call }
{
    match call {
        None => 0,
        Some(open) => open.source.digits,
    }
}

// The mobile rings desk d, which has this number, and the answer has what the ring notice had.
pub fn answers_ring(d: u8, own: Number, answer: Ring, c: Channel) -> bool
    ensures { result ≡ answers_ring d own answer c }
{
    let call = c.call;
    (0 < c.ring)
        & is_told(d, call)
        & (answer.kind == Call::INDIVIDUAL as u32)
        & (answer.source.digits == caller_of(call))
        & (answer.destination == own)
}
