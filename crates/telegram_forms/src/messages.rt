// Each telegram, written in a straight line: nothing is checked here.
#![tactic(auto, using(crate::proofs::PutLaws::form_by_fields, crate::proofs::PutLaws::body_by_fields))]

ghost use Rattle.std.specs.Prelude.{[], ◌∷◌, ◌≡◌};
ghost use Rattle.std.proofs.lemmas.List.Edits.{sets};
ghost use Rattle.fields.specs.Fields.{bytes_of};
ghost use Rattle.telegram.specs.Telegram.{ring_body, capture_reply, capture_state, telegram_of};
ghost use Rattle.telegram_forms.specs.Forms.{padded};

use super::digits::{digits, header};
use telegram::{
    BaseArrival, Call, CallResult, CallerNotice, CaptureRequest, CaptureState, Message, Number,
    OperationAnswer, Reply, Ring, TimeNotice,
};

// The body of a ring notice and of a ring answer, put behind a header.
fn ring_body(t: [u8; 46], channel: u32, kind: u32, source: Number, destination: Number) -> [u8; 46]
    ensures { result ≡ sets t 16 (bytes_of ring_body (channel ∷ kind ∷ 8 ∷ source.digits ∷ 8 ∷ destination.digits ∷ [])) }
{
    let t = digits::<3>(t, 16, channel);
    let t = digits::<1>(t, 19, kind);
    let t = digits::<1>(t, 20, Number::LEN);
    let t = digits::<8>(t, 21, source.digits);
    let t = digits::<1>(t, 29, Number::LEN);
    digits::<8>(t, 30, destination.digits)
}

// The body of an answer reply and of a capture reply, put behind a header.
fn reply_body(t: [u8; 46], channel: u32, outcome: u32) -> [u8; 46]
    ensures { result ≡ sets t 16 (bytes_of capture_reply.body (channel ∷ outcome ∷ [])) }
{
    let t = digits::<3>(t, 16, channel);
    digits::<1>(t, 19, outcome)
}

// The body of a capture request and of a capture state, put behind a header.
fn capture_body(t: [u8; 46], channel: u32, number: Number, flag: u32) -> [u8; 46]
    ensures { result ≡ sets t 16 (bytes_of capture_state.body (channel ∷ 8 ∷ number.digits ∷ flag ∷ [])) }
{
    let t = digits::<3>(t, 16, channel);
    let t = digits::<1>(t, 19, Number::LEN);
    let t = digits::<8>(t, 20, number.digits);
    digits::<1>(t, 28, flag)
}

// Each of these gives a message of one kind as a telegram under code 0, and zeros behind it. They are no methods of a trait: two
// telegrams have no struct, and a ring's answer and notice say the same.
// A number that is too large for its field loses its highest digits: whoever calls this knows the numbers.
pub fn time_notice_form(m: TimeNotice) -> [u8; 46]
    ensures { result ≡ padded (telegram_of 0 (Message.TimeNotice m)) }
{
    let t = header(30, 550411);
    let t = digits::<4>(t, 16, m.year);
    let t = digits::<2>(t, 20, m.month);
    let t = digits::<2>(t, 22, m.day);
    let t = digits::<2>(t, 24, m.hour);
    let t = digits::<2>(t, 26, m.minute);
    digits::<2>(t, 28, m.second)
}

pub fn ring_answer_form(m: Ring) -> [u8; 46]
    ensures { result ≡ padded (telegram_of 0 (Message.RingAnswer m)) }
{
    let t = header(38, 550419);
    ring_body(t, m.channel, m.kind, m.source, m.destination)
}

pub fn operation_answer_form(m: OperationAnswer) -> [u8; 46]
    ensures { result ≡ padded (telegram_of 0 (Message.OperationAnswer m)) }
{
    let t = header(18, 550421);
    let t = digits::<1>(t, 16, m.system);
    digits::<1>(t, 17, m.state)
}

pub fn time_request_form() -> [u8; 46]
    ensures { result ≡ padded (telegram_of 0 Message.TimeRequest) }
{
    header(16, 550461)
}

pub fn base_arrival_form(m: BaseArrival) -> [u8; 46]
    ensures { result ≡ padded (telegram_of 0 (Message.BaseArrival m)) }
{
    let t = header(32, 550464);
    let t = digits::<3>(t, 16, m.channel);
    let t = digits::<3>(t, 19, m.base);
    let t = digits::<1>(t, 22, m.kind);
    let t = digits::<8>(t, 23, m.number.digits);
    digits::<1>(t, 31, m.order)
}

pub fn ring_notice_form(m: Ring) -> [u8; 46]
    ensures { result ≡ padded (telegram_of 0 (Message.RingNotice m)) }
{
    let t = header(38, 550468);
    ring_body(t, m.channel, m.kind, m.source, m.destination)
}

pub fn answer_reply_form(m: Reply) -> [u8; 46]
    ensures { result ≡ padded (telegram_of 0 (Message.AnswerReply m)) }
{
    let t = header(20, 550469);
    reply_body(t, m.channel, m.result)
}

pub fn operation_request_form() -> [u8; 46]
    ensures { result ≡ padded (telegram_of 0 Message.OperationRequest) }
{
    header(16, 550471)
}

pub fn call_form(m: Call) -> [u8; 46]
    ensures { result ≡ padded (telegram_of 0 (Message.Call m)) }
{
    let t = header(46, 550473);
    let t = digits::<3>(t, 16, m.channel);
    let t = digits::<3>(t, 19, m.base);
    let t = digits::<1>(t, 22, m.kind);
    let t = digits::<1>(t, 23, m.media);
    let t = digits::<1>(t, 24, m.direction);
    let t = digits::<1>(t, 25, m.start);
    let t = digits::<2>(t, 26, m.reason);
    let t = digits::<1>(t, 28, Number::LEN);
    let t = digits::<8>(t, 29, m.source.digits);
    let t = digits::<1>(t, 37, Number::LEN);
    digits::<8>(t, 38, m.destination.digits)
}

pub fn caller_notice_form(m: CallerNotice) -> [u8; 46]
    ensures { result ≡ padded (telegram_of 0 (Message.CallerNotice m)) }
{
    let t = header(33, 550477);
    let t = digits::<3>(t, 16, m.channel);
    let t = digits::<3>(t, 19, m.base);
    let t = digits::<1>(t, 22, m.kind);
    let t = digits::<1>(t, 23, m.direction);
    let t = digits::<8>(t, 24, m.number.digits);
    digits::<1>(t, 32, m.order)
}

pub fn call_result_form(m: CallResult) -> [u8; 46]
    ensures { result ≡ padded (telegram_of 0 (Message.CallResult m)) }
{
    let t = header(30, 550480);
    let t = digits::<3>(t, 16, m.channel);
    let t = digits::<1>(t, 19, m.kind);
    let t = digits::<1>(t, 20, m.result);
    let t = digits::<1>(t, 21, Number::LEN);
    digits::<8>(t, 22, m.destination.digits)
}

pub fn capture_request_form(m: CaptureRequest) -> [u8; 46]
    ensures { result ≡ padded (telegram_of 0 (Message.CaptureRequest m)) }
{
    let t = header(29, 550600);
    capture_body(t, m.channel, m.number, m.order)
}

pub fn capture_reply_form(m: Reply) -> [u8; 46]
    ensures { result ≡ padded (telegram_of 0 (Message.CaptureReply m)) }
{
    let t = header(20, 550650);
    reply_body(t, m.channel, m.result)
}

pub fn capture_state_form(m: CaptureState) -> [u8; 46]
    ensures { result ≡ padded (telegram_of 0 (Message.CaptureState m)) }
{
    let t = header(29, 550651);
    capture_body(t, m.channel, m.number, m.state)
}
