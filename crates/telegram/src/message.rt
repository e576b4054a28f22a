// What telegrams say, and the errors of the reader and the writer.
ghost use Rattle.std.specs.Prelude.{◌≡◌};
ghost use Rattle.telegram.specs.Telegram.{num, refusal_of};

// The number of a desk or a mobile: eight digits.
#[derive(Clone, Copy, Debug, PartialEq, Eq)]
pub struct Number {
    pub digits: u32,
}

impl Number {
    // How many digits a number has: what a telegram says in the field before some numbers.
    pub const LEN: u32 = 8;

    // No number at all (01: the none-number).
    pub const NONE: Number = Number { digits: 0 };

    pub fn new(digits: u32) -> Number
        ensures { result ≡ num digits }
    {
        Number { digits }
    }
}

#[derive(Clone, Copy)]
pub struct TimeNotice {
    pub year: u32,
    pub month: u32,
    pub day: u32,
    pub hour: u32,
    pub minute: u32,
    pub second: u32,
}

// A ring notice and the answer to it, which say the same.
#[derive(Clone, Copy)]
pub struct Ring {
    pub channel: u32,
    pub kind: u32,
    pub source: Number,
    pub destination: Number,
}

#[derive(Clone, Copy)]
pub struct OperationAnswer {
    pub system: u32,
    pub state: u32,
}

#[derive(Clone, Copy)]
pub struct BaseArrival {
    pub channel: u32,
    pub base: u32,
    pub kind: u32,
    pub number: Number,
    pub order: u32,
}

// The reply to a ring answer or to a capture request.
#[derive(Clone, Copy)]
pub struct Reply {
    pub channel: u32,
    pub result: u32,
}

#[derive(Clone, Copy)]
pub struct Call {
    pub channel: u32,
    pub base: u32,
    pub kind: u32,
    pub media: u32,
    pub direction: u32,
    pub start: u32,
    pub reason: u32,
    pub source: Number,
    pub destination: Number,
}

#[derive(Clone, Copy)]
pub struct CallerNotice {
    pub channel: u32,
    pub base: u32,
    pub kind: u32,
    pub direction: u32,
    pub number: Number,
    pub order: u32,
}

#[derive(Clone, Copy)]
pub struct CallResult {
    pub channel: u32,
    pub kind: u32,
    pub result: u32,
    pub destination: Number,
}

#[derive(Clone, Copy)]
pub struct CaptureRequest {
    pub channel: u32,
    pub number: Number,
    pub order: u32,
}

#[derive(Clone, Copy)]
pub struct CaptureState {
    pub channel: u32,
    pub number: Number,
    pub state: u32,
}

// A telegram without its header, in the order of the identifiers. `kind` is a call's type.
#[derive(Clone, Copy)]
pub enum Message {
    TimeNotice(TimeNotice),
    RingAnswer(Ring),
    OperationAnswer(OperationAnswer),
    TimeRequest,
    BaseArrival(BaseArrival),
    RingNotice(Ring),
    AnswerReply(Reply),
    OperationRequest,
    Call(Call),
    CallerNotice(CallerNotice),
    CallResult(CallResult),
    CaptureRequest(CaptureRequest),
    CaptureReply(Reply),
    CaptureState(CaptureState),
}

// A telegram that was read: a message under an organisation code.
#[derive(Clone, Copy)]
pub struct Telegram {
    pub code: u32,
    pub message: Message,
}

// Why bytes read as no telegram, and what was seen before.
#[derive(Clone, Copy, Debug, PartialEq, Eq)]
pub enum ReadError {
    // The header is wrong.
    Header,
    // The table has no such identifier, or it is not digits.
    Identifier { code: u32, identifier: Option<u32> },
    // The body's size, or a field's range.
    Body { code: u32, identifier: u32 },
}

impl ReadError {
    // 01's refusal number.
    pub fn refusal(self) -> u8
        ensures { result ≡ refusal_of self }
    {
        match self {
            ReadError::Header => 8,
            ReadError::Identifier { .. } => 9,
            ReadError::Body { .. } => 10,
        }
    }
}

// Why a message was not written.
#[derive(Clone, Copy, Debug, PartialEq, Eq)]
pub enum WriteError {
    // The code or a number cannot stand in its field.
    OutOfRange,
    // The buffer is too short.
    NoRoom,
}
