// The telegram of a body, which is made once for all desks that it goes to: under code 0, and with the none-number where a desk's own
// number belongs. A contact has none.
ghost use Rattle.std.specs.Prelude.{◌≡◌};
ghost use Rattle.bodies.specs.Bodies.{form_of};

use super::body::Body;
use channel::Notice;
use telegram::{BaseArrival, Call, CallResult, CallerNotice, CaptureState, Number, Reply, Ring};

// The type of a call to one desk.
const INDIVIDUAL: u32 = channel::Call::INDIVIDUAL as u32;

// A function for each notice: in one match, a field a line, they would be a hundred lines.
fn base_arrival_form(ch: u8, kind: u8, base: u8, number: Number, order: u8) -> [u8; 46]
    ensures { result ≡ form_of (Body.About ch (Notice.BaseArrival kind base number order)) }
{
    let m = BaseArrival {
        channel: u32::from(ch),
        base: u32::from(base),
        kind: u32::from(kind),
        number,
        order: u32::from(order),
    };
    telegram_forms::base_arrival_form(m)
}

fn call_form(
    ch: u8,
    kind: u8,
    direction: u8,
    base: u16,
    source: Number,
    start: u8,
    reason: u8,
) -> [u8; 46]
    ensures { result ≡ form_of (Body.About ch (Notice.Call kind direction base source start reason)) }
{
    let m = Call {
        channel: u32::from(ch),
        base: u32::from(base),
        kind: u32::from(kind),
        media: 0,
        direction: u32::from(direction),
        start: u32::from(start),
        reason: u32::from(reason),
        source,
        destination: Number::NONE,
    };
    telegram_forms::call_form(m)
}

// A press's notice is down, from base 999, and its number is the desk's own.
fn press_notice_form(ch: u8, kind: u8, order: u8) -> [u8; 46]
    ensures { result ≡ form_of (Body.About ch (Notice.PressNotice kind order)) }
{
    let m = CallerNotice {
        channel: u32::from(ch),
        base: 999,
        kind: u32::from(kind),
        direction: u32::from(channel::Call::DOWN),
        number: Number::NONE,
        order: u32::from(order),
    };
    telegram_forms::caller_notice_form(m)
}

fn caller_notice_form(ch: u8, kind: u8, base: u8, number: Number, order: u8) -> [u8; 46]
    ensures { result ≡ form_of (Body.About ch (Notice.CallerNotice kind base number order)) }
{
    let m = CallerNotice {
        channel: u32::from(ch),
        base: u32::from(base),
        kind: u32::from(kind),
        direction: u32::from(channel::Call::UP),
        number,
        order: u32::from(order),
    };
    telegram_forms::caller_notice_form(m)
}

fn capture_reply_form(ch: u8, outcome: u8) -> [u8; 46]
    ensures { result ≡ form_of (Body.About ch (Notice.CaptureReply outcome)) }
{
    let m = Reply {
        channel: u32::from(ch),
        result: u32::from(outcome),
    };
    telegram_forms::capture_reply_form(m)
}

// Its number is the holder's own, for the holder alone.
fn capture_state_form(ch: u8, holder: u8, state: u8) -> [u8; 46]
    ensures { result ≡ form_of (Body.About ch (Notice.CaptureState holder state)) }
{
    let m = CaptureState {
        channel: u32::from(ch),
        number: Number::NONE,
        state: u32::from(state),
    };
    telegram_forms::capture_state_form(m)
}

// Its destination is the called desk's own number.
fn ring_notice_form(ch: u8, number: Number) -> [u8; 46]
    ensures { result ≡ form_of (Body.About ch (Notice.RingNotice number)) }
{
    let unfilled = Number::NONE;
    let m = Ring {
        channel: u32::from(ch),
        kind: INDIVIDUAL,
        source: number,
        destination: unfilled,
    };
    telegram_forms::ring_notice_form(m)
}

fn answer_reply_form(ch: u8, outcome: u8) -> [u8; 46]
    ensures { result ≡ form_of (Body.About ch (Notice.AnswerReply outcome)) }
{
    let m = Reply {
        channel: u32::from(ch),
        result: u32::from(outcome),
    };
    telegram_forms::answer_reply_form(m)
}

// Its destination is the called desk's own number.
fn call_result_form(ch: u8, outcome: u8) -> [u8; 46]
    ensures { result ≡ form_of (Body.About ch (Notice.CallResult outcome)) }
{
    let unfilled = Number::NONE;
    let m = CallResult {
        channel: u32::from(ch),
        kind: INDIVIDUAL,
        result: u32::from(outcome),
        destination: unfilled,
    };
    telegram_forms::call_result_form(m)
}

fn notice_form(ch: u8, notice: Notice) -> [u8; 46]
    ensures { result ≡ form_of (Body.About ch notice) }
{
    match notice {
        Notice::PressAnswer { .. } => [0u8; 46],
        Notice::Incoming { .. } => [0u8; 46],
        Notice::BaseArrival {
            kind,
            base,
            number,
            order,
        } => base_arrival_form(ch, kind, base, number, order),
        Notice::Call {
            kind,
            direction,
            base,
            source,
            start,
            reason,
        } => call_form(ch, kind, direction, base, source, start, reason),
        Notice::PressNotice { kind, order } => press_notice_form(ch, kind, order),
        Notice::CallerNotice {
            kind,
            base,
            number,
            order,
        } => caller_notice_form(ch, kind, base, number, order),
        Notice::CaptureReply { result } => capture_reply_form(ch, result),
        Notice::CaptureState { holder, state } => capture_state_form(ch, holder, state),
        Notice::RingNotice { number } => ring_notice_form(ch, number),
        Notice::AnswerReply { result } => answer_reply_form(ch, result),
        Notice::CallResult { result } => call_result_form(ch, result),
    }
}

pub fn form_of(body: Body) -> [u8; 46]
    ensures { result ≡ form_of body }
{
    match body {
        Body::About { channel, notice } => notice_form(channel, notice),
        Body::TimeRequest => telegram_forms::time_request_form(),
        Body::OperationRequest => telegram_forms::operation_request_form(),
    }
}
