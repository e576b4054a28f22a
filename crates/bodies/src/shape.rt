// What the records of a body have in common, whichever desk they go to.
ghost use Rattle.std.specs.Prelude.{◌≡◌, ◌≤◌};
ghost use Rattle.bodies.specs.Bodies.{shape_of, size_in};

use super::body::Body;
use channel::Notice;

// Who finds the own number in a telegram: everyone at a place, or the holder of a channel in a 550651.
#[derive(Clone, Copy)]
pub enum Own {
    Nobody,
    Everyone { at: usize },
    Holder(u8),
}

// What a record holds: a contact, or a telegram, with the size of the whole record. A contact's is 8 bytes.
#[derive(Clone, Copy)]
pub enum Shape {
    Contact { kind: u8, channel: u8, on: u8 },
    Telegram { own: Own, size: usize },
}

impl Shape {
    // What a contact tells: that a desk's press is answered, or that talk comes in.
    pub const PRESS_ANSWER: u8 = 1;

    pub const INCOMING: u8 = 2;
}

fn plain(size: usize) -> Shape
    ensures { result ≡ Shape.Telegram Own.Nobody size }
{
    let own = Own::Nobody;
    Shape::Telegram { own, size }
}

// A telegram with the own number of each desk, at a place.
fn to_each(at: usize, size: usize) -> Shape
    ensures { result ≡ Shape.Telegram (Own.Everyone at) size }
{
    let own = Own::Everyone { at };
    Shape::Telegram { own, size }
}

// How long the record of a notice is, whichever channel it is about.
pub fn notice_size(notice: Notice) -> usize
    ensures { (result ≡ size_in (shape_of (Body.About 0 notice))) × (result ≤ 51) }
{
    match notice {
        Notice::PressAnswer { .. } => 8,
        Notice::Incoming { .. } => 8,
        Notice::BaseArrival { .. } => 37,
        Notice::Call { .. } => 51,
        Notice::PressNotice { .. } => 38,
        Notice::CallerNotice { .. } => 38,
        Notice::CaptureReply { .. } => 25,
        Notice::CaptureState { .. } => 34,
        Notice::RingNotice { .. } => 43,
        Notice::AnswerReply { .. } => 25,
        Notice::CallResult { .. } => 35,
    }
}

fn notice_shape(channel: u8, notice: Notice) -> Shape
    ensures { result ≡ shape_of (Body.About channel notice) }
{
    let size = notice_size(notice);
    match notice {
        Notice::PressAnswer { on } => Shape::Contact {
            kind: Shape::PRESS_ANSWER,
            channel,
            on,
        },
        Notice::Incoming { on } => Shape::Contact {
            kind: Shape::INCOMING,
            channel,
            on,
        },
        Notice::BaseArrival { .. } => plain(size),
        Notice::Call { .. } => plain(size),
        Notice::PressNotice { .. } => to_each(24, size),
        Notice::CallerNotice { .. } => plain(size),
        Notice::CaptureReply { .. } => plain(size),
        Notice::CaptureState { holder, .. } => {
            let own = Own::Holder(holder);
            Shape::Telegram { own, size }
        }
        Notice::RingNotice { .. } => to_each(30, size),
        Notice::AnswerReply { .. } => plain(size),
        Notice::CallResult { .. } => to_each(22, size),
    }
}

pub fn shape_of(body: Body) -> Shape
    ensures { result ≡ shape_of body }
{
    match body {
        Body::About { channel, notice } => notice_shape(channel, notice),
        Body::TimeRequest => plain(21),
        Body::OperationRequest => plain(21),
    }
}
