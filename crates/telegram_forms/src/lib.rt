// The written form of each telegram: digits, and a function for each telegram that gives its bytes.
#![tactic(auto)]

mod digits;
mod messages;

pub use messages::{
    answer_reply_form, base_arrival_form, call_form, call_result_form, caller_notice_form,
    capture_reply_form, capture_request_form, capture_state_form, operation_answer_form,
    operation_request_form, ring_answer_form, ring_notice_form, time_notice_form,
    time_request_form,
};
