// Reading telegrams: the header, then the numbers of the body by its list of fields, then the message that they make.
ghost use Rattle.std.specs.Prelude.{[], ◌∷◌, ◌≡◌};
ghost use Rattle.numerals.specs.Digits.{digits_in};
ghost use Rattle.fields.specs.Fields.{length4, code};
ghost use Rattle.fields.specs.Held.{fields_in};
ghost use Rattle.telegram.specs.Telegram.{time_notice, ring_of, operation_answer, base_arrival, reply_of, call, caller_notice, call_result, capture_request, capture_state, table, read_in, read_telegram};
ghost use Rattle.telegram_reader.specs.Steps.{identifiers, known_in, row_for, header_of};

use fields::Field;
use telegram::{
    BaseArrival, Call, CallResult, CallerNotice, CaptureRequest, CaptureState, Message, Number,
    OperationAnswer, ReadError, Reply, Ring, Telegram, TimeNotice,
};

fn time_notice(v: [u32; 11]) -> TimeNotice
    ensures { Message.TimeNotice result ≡ time_notice.make v }
{
    TimeNotice {
        year: v[0],
        month: v[1],
        day: v[2],
        hour: v[3],
        minute: v[4],
        second: v[5],
    }
}

fn ring(v: [u32; 11]) -> Ring
    ensures { result ≡ ring_of v }
{
    Ring {
        channel: v[0],
        kind: v[1],
        source: Number::new(v[3]),
        destination: Number::new(v[5]),
    }
}

fn operation_answer(v: [u32; 11]) -> OperationAnswer
    ensures { Message.OperationAnswer result ≡ operation_answer.make v }
{
    OperationAnswer {
        system: v[0],
        state: v[1],
    }
}

fn base_arrival(v: [u32; 11]) -> BaseArrival
    ensures { Message.BaseArrival result ≡ base_arrival.make v }
{
    BaseArrival {
        channel: v[0],
        base: v[1],
        kind: v[2],
        number: Number::new(v[3]),
        order: v[4],
    }
}

fn reply(v: [u32; 11]) -> Reply
    ensures { result ≡ reply_of v }
{
    Reply {
        channel: v[0],
        result: v[1],
    }
}

fn call(v: [u32; 11]) -> Call
    ensures { Message.Call result ≡ call.make v }
{
    Call {
        channel: v[0],
        base: v[1],
        kind: v[2],
        media: v[3],
        direction: v[4],
        start: v[5],
        reason: v[6],
        source: Number::new(v[8]),
        destination: Number::new(v[10]),
    }
}

fn caller_notice(v: [u32; 11]) -> CallerNotice
    ensures { Message.CallerNotice result ≡ caller_notice.make v }
{
    CallerNotice {
        channel: v[0],
        base: v[1],
        kind: v[2],
        direction: v[3],
        number: Number::new(v[4]),
        order: v[5],
    }
}

fn call_result(v: [u32; 11]) -> CallResult
    ensures { Message.CallResult result ≡ call_result.make v }
{
    CallResult {
        channel: v[0],
        kind: v[1],
        result: v[2],
        destination: Number::new(v[4]),
    }
}

fn capture_request(v: [u32; 11]) -> CaptureRequest
    ensures { Message.CaptureRequest result ≡ capture_request.make v }
{
    CaptureRequest {
        channel: v[0],
        number: Number::new(v[2]),
        order: v[3],
    }
}

fn capture_state(v: [u32; 11]) -> CaptureState
    ensures { Message.CaptureState result ≡ capture_state.make v }
{
    CaptureState {
        channel: v[0],
        number: Number::new(v[2]),
        state: v[3],
    }
}

// The numbers of a capture request, in a straight line: by its list of fields they take some four times the instructions.
fn read_capture_request(b: &[u8]) -> Option<[u32; 11]>
    ensures { result ≡ fields_in capture_request.body b.now }
{
    if b.len() != 13 {
        return None;
    }
    let channel = numerals::four(b'0', b[0], b[1], b[2]);
    let len = numerals::four(b'0', b'0', b'0', b[3]);
    let number = numerals::eight(b[4], b[5], b[6], b[7], b[8], b[9], b[10], b[11]);
    let order = numerals::four(b'0', b'0', b'0', b[12]);
    if Field::Channel.in_range(0, 0, channel)
        & Field::Len.in_range(0, channel, len)
        & Field::Number.in_range(channel, len, number)
        & Field::Flag.in_range(len, number, order)
    {
        Some([channel, len, number, order, 0, 0, 0, 0, 0, 0, 0])
    } else {
        None
    }
}

// The identifiers of the table.
#[derive(Clone, Copy)]
enum Identifier {
    TimeNotice,
    RingAnswer,
    OperationAnswer,
    TimeRequest,
    BaseArrival,
    RingNotice,
    AnswerReply,
    OperationRequest,
    Call,
    CallerNotice,
    CallResult,
    CaptureRequest,
    CaptureReply,
    CaptureState,
}

impl Identifier {
    fn of(number: u32) -> Option<Identifier>
        ensures { result ≡ known_in identifiers number }
    {
        match number {
            550411 => Some(Identifier::TimeNotice),
            550419 => Some(Identifier::RingAnswer),
            550421 => Some(Identifier::OperationAnswer),
            550461 => Some(Identifier::TimeRequest),
            550464 => Some(Identifier::BaseArrival),
            550468 => Some(Identifier::RingNotice),
            550469 => Some(Identifier::AnswerReply),
            550471 => Some(Identifier::OperationRequest),
            550473 => Some(Identifier::Call),
            550477 => Some(Identifier::CallerNotice),
            550480 => Some(Identifier::CallResult),
            550600 => Some(Identifier::CaptureRequest),
            550650 => Some(Identifier::CaptureReply),
            550651 => Some(Identifier::CaptureState),
            _ => None,
        }
    }

    // The numbers of the fields that belong to it.
    fn numbers(self, body: &[u8]) -> Option<[u32; 11]>
        ensures { result ≡ fields_in (row_for self).body body.now }
    {
        match self {
            Identifier::TimeNotice => fields::read_fields(body, &telegram::TIME_NOTICE),
            Identifier::RingAnswer => fields::read_fields(body, &telegram::RING),
            Identifier::OperationAnswer => fields::read_fields(body, &telegram::OPERATION_ANSWER),
            Identifier::TimeRequest => fields::read_fields(body, &telegram::NO_FIELDS),
            Identifier::BaseArrival => fields::read_fields(body, &telegram::BASE_ARRIVAL),
            Identifier::RingNotice => fields::read_fields(body, &telegram::RING),
            Identifier::AnswerReply => fields::read_fields(body, &telegram::REPLY),
            Identifier::OperationRequest => fields::read_fields(body, &telegram::NO_FIELDS),
            Identifier::Call => fields::read_fields(body, &telegram::CALL),
            Identifier::CallerNotice => fields::read_fields(body, &telegram::CALLER_NOTICE),
            Identifier::CallResult => fields::read_fields(body, &telegram::CALL_RESULT),
            Identifier::CaptureRequest => read_capture_request(body),
            Identifier::CaptureReply => fields::read_fields(body, &telegram::REPLY),
            Identifier::CaptureState => fields::read_fields(body, &telegram::CAPTURE_STATE),
        }
    }

    // The message that these numbers make.
    fn message(self, v: [u32; 11]) -> Message
        ensures { result ≡ (row_for self).make v }
    {
        match self {
            Identifier::TimeNotice => Message::TimeNotice(time_notice(v)),
            Identifier::RingAnswer => Message::RingAnswer(ring(v)),
            Identifier::OperationAnswer => Message::OperationAnswer(operation_answer(v)),
            Identifier::TimeRequest => Message::TimeRequest,
            Identifier::BaseArrival => Message::BaseArrival(base_arrival(v)),
            Identifier::RingNotice => Message::RingNotice(ring(v)),
            Identifier::AnswerReply => Message::AnswerReply(reply(v)),
            Identifier::OperationRequest => Message::OperationRequest,
            Identifier::Call => Message::Call(call(v)),
            Identifier::CallerNotice => Message::CallerNotice(caller_notice(v)),
            Identifier::CallResult => Message::CallResult(call_result(v)),
            Identifier::CaptureRequest => Message::CaptureRequest(capture_request(v)),
            Identifier::CaptureReply => Message::CaptureReply(reply(v)),
            Identifier::CaptureState => Message::CaptureState(capture_state(v)),
        }
    }
}

// Reads what follows a right header, by its identifier.
fn read_identified(code: u32, identifier: u32, body: &[u8]) -> Result<Telegram, ReadError>
    ensures { result ≡ read_in table code identifier body.now }
{
    let Some(known) = Identifier::of(identifier) else {
        return Err(ReadError::Identifier {
            code,
            identifier: Some(identifier),
        });
    };
    let Some(numbers) = known.numbers(body) else {
        return Err(ReadError::Body { code, identifier });
    };
    Ok(Telegram {
        code,
        message: known.message(numbers),
    })
}

// The numbers of the length and of the organisation code, in a straight line.
fn read_heading(s: &[u8]) -> Option<[u32; 11]>
    ensures { result ≡ fields_in (length4 ∷ code ∷ []) s.now }
{
    if s.len() != 8 {
        return None;
    }
    let n = numerals::four(s[0], s[1], s[2], s[3]);
    let code = numerals::four(s[4], s[5], s[6], s[7]);
    if Field::Length.in_range(0, 0, n) & Field::Code.in_range(0, n, code) {
        Some([n, code, 0, 0, 0, 0, 0, 0, 0, 0, 0])
    } else {
        None
    }
}

// The organisation code, if all is right with the header.
fn read_header(s: &[u8]) -> Option<u32>
    ensures { result ≡ header_of s.now }
{
    if s.len() < 16 {
        return None;
    }
    if s[0] != b'D' {
        return None;
    }
    if s[1] != b'V' {
        return None;
    }
    let v = read_heading(&s[2..10])?;
    if v[0] as usize != s.len() {
        return None;
    }
    Some(v[1])
}

// What digits spell, six of them in a straight line.
fn read_identifier(s: &[u8]) -> Option<u32>
    ensures { result ≡ digits_in s.now }
{
    if s.len() != 6 {
        return numerals::read_digits(s);
    }
    let v = numerals::eight(b'0', b'0', s[0], s[1], s[2], s[3], s[4], s[5]);
    if v < 1000000 { Some(v) } else { None }
}

// Reads any bytes as one telegram.
pub fn read(s: &[u8]) -> Result<Telegram, ReadError>
    ensures { result ≡ read_telegram s.now }
{
    let Some(code) = read_header(s) else {
        return Err(ReadError::Header);
    };
    let Some(identifier) = read_identifier(&s[10..16]) else {
        return Err(ReadError::Identifier {
            code,
            identifier: None,
        });
    };
    read_identified(code, identifier, &s[16..])
}
