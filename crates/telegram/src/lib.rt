// The telegrams of the command link: what they say, and each one's list of fields.
#![tactic(auto)]

mod lists;
mod message;

pub use lists::{
    BASE_ARRIVAL, CALL, CALL_RESULT, CALLER_NOTICE, CAPTURE_REQUEST, CAPTURE_STATE, NO_FIELDS,
    OPERATION_ANSWER, REPLY, RING, TIME_NOTICE,
};
pub use message::{
    BaseArrival, Call, CallResult, CallerNotice, CaptureRequest, CaptureState, Message, Number,
    OperationAnswer, ReadError, Reply, Ring, Telegram, TimeNotice, WriteError,
};
