// Any message: how long it is as a telegram, `put`, whether its numbers can stand in their fields, and `write`, which checks
// both before it puts.
ghost use Rattle.std.specs.Prelude.{[], ◌∷◌, ◌≡◌, ◌≤◌, length};
ghost use Rattle.fields.specs.Fields.{all_in};
ghost use Rattle.telegram.specs.Telegram.{ring_body, reply_body, in_range, over, size_of, telegram_of, write_answer, write_into};
ghost use Rattle.telegram_forms.specs.Forms.{padded};

use telegram::{
    BaseArrival, Call, CallResult, CallerNotice, CaptureRequest, CaptureState, Message, Number,
    OperationAnswer, Reply, Ring, TimeNotice, WriteError,
};

// How many bytes a message is as a telegram.
fn size(message: Message) -> usize
    ensures { result ≡ size_of message }
{
    match message {
        Message::TimeNotice(m) => 30,
        Message::RingAnswer(m) => 38,
        Message::OperationAnswer(m) => 18,
        Message::TimeRequest => 16,
        Message::BaseArrival(m) => 32,
        Message::RingNotice(m) => 38,
        Message::AnswerReply(m) => 20,
        Message::OperationRequest => 16,
        Message::Call(m) => 46,
        Message::CallerNotice(m) => 33,
        Message::CallResult(m) => 30,
        Message::CaptureRequest(m) => 29,
        Message::CaptureReply(m) => 20,
        Message::CaptureState(m) => 29,
    }
}

// A message as a telegram under code 0, and zeros behind it.
fn form(message: Message) -> [u8; 46]
    ensures { result ≡ padded (telegram_of 0 message) }
{
    match message {
        Message::TimeNotice(m) => telegram_forms::time_notice_form(m),
        Message::RingAnswer(m) => telegram_forms::ring_answer_form(m),
        Message::OperationAnswer(m) => telegram_forms::operation_answer_form(m),
        Message::TimeRequest => telegram_forms::time_request_form(),
        Message::BaseArrival(m) => telegram_forms::base_arrival_form(m),
        Message::RingNotice(m) => telegram_forms::ring_notice_form(m),
        Message::AnswerReply(m) => telegram_forms::answer_reply_form(m),
        Message::OperationRequest => telegram_forms::operation_request_form(),
        Message::Call(m) => telegram_forms::call_form(m),
        Message::CallerNotice(m) => telegram_forms::caller_notice_form(m),
        Message::CallResult(m) => telegram_forms::call_result_form(m),
        Message::CaptureRequest(m) => telegram_forms::capture_request_form(m),
        Message::CaptureReply(m) => telegram_forms::capture_reply_form(m),
        Message::CaptureState(m) => telegram_forms::capture_state_form(m),
    }
}

// Writes a message to the front of a buffer that has room for it, and says how many bytes it is.
// A number that is too large for its field loses its highest digits: whoever calls this knows the numbers.
fn put(message: Message, code: u32, buffer: &mut [u8]) -> usize
    requires { size_of message ≤ length buffer.old }
    ensures value { result ≡ size_of message }
    ensures buffer_after { buffer.new ≡ over (telegram_of code message) buffer.old }
{
    let n = size(message);
    let bytes = form(message);
    telegram_copies::put_form(&bytes, n, code, buffer);
    n
}

// Whether each message's numbers can stand in their fields. These are functions, not arms of `in_range` below: in one match they would
// be some hundred lines.
fn time_notice_in_range(m: TimeNotice) -> bool
    ensures { result ≡ in_range (Message.TimeNotice m) }
{
    let values = [m.year, m.month, m.day, m.hour, m.minute, m.second];
    fields::all_in(&telegram::TIME_NOTICE, &values)
}

// A ring notice or a ring answer.
fn ring_in_range(m: Ring) -> bool
    ensures { result ≡ all_in ring_body 0 0 (m.channel ∷ m.kind ∷ 8 ∷ m.source.digits ∷ 8 ∷ m.destination.digits ∷ []) }
{
    let values = [
        m.channel,
        m.kind,
        Number::LEN,
        m.source.digits,
        Number::LEN,
        m.destination.digits,
    ];
    fields::all_in(&telegram::RING, &values)
}

fn operation_answer_in_range(m: OperationAnswer) -> bool
    ensures { result ≡ in_range (Message.OperationAnswer m) }
{
    let values = [m.system, m.state];
    fields::all_in(&telegram::OPERATION_ANSWER, &values)
}

fn base_arrival_in_range(m: BaseArrival) -> bool
    ensures { result ≡ in_range (Message.BaseArrival m) }
{
    let values = [m.channel, m.base, m.kind, m.number.digits, m.order];
    fields::all_in(&telegram::BASE_ARRIVAL, &values)
}

// An answer reply or a capture reply.
fn reply_in_range(m: Reply) -> bool
    ensures { result ≡ all_in reply_body 0 0 (m.channel ∷ m.result ∷ []) }
{
    let values = [m.channel, m.result];
    fields::all_in(&telegram::REPLY, &values)
}

fn call_in_range(m: Call) -> bool
    ensures { result ≡ in_range (Message.Call m) }
{
    let values = [
        m.channel,
        m.base,
        m.kind,
        m.media,
        m.direction,
        m.start,
        m.reason,
        Number::LEN,
        m.source.digits,
        Number::LEN,
        m.destination.digits,
    ];
    fields::all_in(&telegram::CALL, &values)
}

fn caller_notice_in_range(m: CallerNotice) -> bool
    ensures { result ≡ in_range (Message.CallerNotice m) }
{
    let values = [
        m.channel,
        m.base,
        m.kind,
        m.direction,
        m.number.digits,
        m.order,
    ];
    fields::all_in(&telegram::CALLER_NOTICE, &values)
}

fn call_result_in_range(m: CallResult) -> bool
    ensures { result ≡ in_range (Message.CallResult m) }
{
    let values = [
        m.channel,
        m.kind,
        m.result,
        Number::LEN,
        m.destination.digits,
    ];
    fields::all_in(&telegram::CALL_RESULT, &values)
}

fn capture_request_in_range(m: CaptureRequest) -> bool
    ensures { result ≡ in_range (Message.CaptureRequest m) }
{
    let values = [m.channel, Number::LEN, m.number.digits, m.order];
    fields::all_in(&telegram::CAPTURE_REQUEST, &values)
}

fn capture_state_in_range(m: CaptureState) -> bool
    ensures { result ≡ in_range (Message.CaptureState m) }
{
    let values = [m.channel, Number::LEN, m.number.digits, m.state];
    fields::all_in(&telegram::CAPTURE_STATE, &values)
}

fn in_range(message: Message) -> bool
    ensures { result ≡ in_range message }
{
    match message {
        Message::TimeNotice(m) => time_notice_in_range(m),
        Message::RingAnswer(m) => ring_in_range(m),
        Message::OperationAnswer(m) => operation_answer_in_range(m),
        Message::TimeRequest => true,
        Message::BaseArrival(m) => base_arrival_in_range(m),
        Message::RingNotice(m) => ring_in_range(m),
        Message::AnswerReply(m) => reply_in_range(m),
        Message::OperationRequest => true,
        Message::Call(m) => call_in_range(m),
        Message::CallerNotice(m) => caller_notice_in_range(m),
        Message::CallResult(m) => call_result_in_range(m),
        Message::CaptureRequest(m) => capture_request_in_range(m),
        Message::CaptureReply(m) => reply_in_range(m),
        Message::CaptureState(m) => capture_state_in_range(m),
    }
}

// Writes a message under an organisation code to the front of a buffer, or refuses and leaves the buffer as it was.
pub fn write(message: Message, code: u32, buffer: &mut [u8]) -> Result<usize, WriteError>
    ensures value { result ≡ write_answer code message (length buffer.old) }
    ensures buffer_after { buffer.new ≡ write_into code message buffer.old }
{
    let wide = 1023 < code;
    if wide {
        return Err(WriteError::OutOfRange);
    }
    if !in_range(message) {
        return Err(WriteError::OutOfRange);
    }
    if buffer.len() < size(message) {
        return Err(WriteError::NoRoom);
    }
    Ok(put(message, code, buffer))
}
