// What records say.
use channel::Notice;

// What a record says: a notice about a channel, or what a link is asked.
#[derive(Clone, Copy)]
pub enum Body {
    About { channel: u8, notice: Notice },
    TimeRequest,
    OperationRequest,
}
