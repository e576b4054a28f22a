// The state of a channel, its events, and what it sends. Sets of desks are masks: bit 0 is desk 0.
ghost use Rattle.std.specs.Prelude.{◌≡◌};
ghost use Rattle.channel.specs.State.{free_channel};

use telegram::Number;

// A call that is open. `kind` is its type, `recipients` the desks that it was told to (01: its told set). The type and the
// direction stay numbers: a caller's memory may hold any, and `plain_set::Returns` gives them back unchanged.
#[derive(Clone, Copy)]
pub struct Call {
    pub kind: u8,
    pub direction: u8,
    pub recipients: u8,
    pub base: u16,
    pub source: Number,
}

impl Call {
    // The types: a call that talk opens, and one in which a mobile rings one desk.
    pub const GENERAL: u8 = 1;

    pub const INDIVIDUAL: u8 = 3;

    // The directions: from a desk, and from a mobile.
    pub const DOWN: u8 = 1;

    pub const UP: u8 = 2;
}

// A mobile that talks.
#[derive(Clone, Copy)]
pub struct Arrival {
    pub kind: u8,
    pub recipients: u8,
    pub base: u8,
    pub number: Number,
}

#[derive(Clone, Copy)]
pub struct Channel {
    pub code: u8,
    // The desks that may use it (01: its mask).
    pub entitled: u8,
    // Who has captured it, and who presses the talk key on it, the holder if anyone: a desk by its place in the plan.
    pub holder: Option<u8>,
    pub presser: Option<u8>,
    // The quiet timer, the release timer and, while a mobile rings, the ring timer: seconds left, 0 when stopped (01: clocks).
    pub quiet: u8,
    pub release: u8,
    pub ring: u8,
    pub call: Option<Call>,
    pub arrival: Option<Arrival>,
}

impl Channel {
    // How long a call goes on without talk.
    pub const QUIET: u8 = 10;

    // How long a holder keeps the channel without talk.
    pub const RELEASE: u8 = 120;

    // How long a mobile rings without an answer.
    pub const RING: u8 = 15;

    // A channel on which nothing goes on.
    pub fn new(code: u8, entitled: u8) -> Channel
        ensures { result ≡ free_channel code entitled }
    {
        Channel {
            code,
            entitled,
            holder: None,
            presser: None,
            quiet: 0,
            release: 0,
            ring: 0,
            call: None,
            arrival: None,
        }
    }
}

// What happens on a channel, with what the entry says of it. A cut is by the holder, a press off by who presses. A handover is
// two events: what talk there is ends, then the call and the hold.
#[derive(Clone, Copy)]
pub enum Event {
    Capture(u8),
    Release(u8),
    Cut,
    // The desk that presses, and its own number.
    PressOn { desk: u8, number: Number },
    PressOff,
    MobileOn { base: u8, number: Number },
    MobileOff,
    // The desk that a mobile calls, and the mobile's base and number.
    Ring { desk: u8, base: u8, number: Number },
    // The mobile that rings gives up.
    Cancel,
    // A desk's ring answer, and whether it matches the ring.
    RingAnswer { desk: u8, matched: bool },
    Tick,
    EndTalk,
    EndCall,
}

// What a record says, whichever desk gets it: a contact or a telegram about the channel. A desk's own number is not in it: it
// is filled in when the record to that desk is made. Types, orders, results and reasons are the telegrams' own numbers, as in the rules.
#[derive(Clone, Copy)]
pub enum Notice {
    PressAnswer {
        on: u8,
    },
    Incoming {
        on: u8,
    },
    BaseArrival {
        kind: u8,
        base: u8,
        number: Number,
        order: u8,
    },
    Call {
        kind: u8,
        direction: u8,
        base: u16,
        source: Number,
        start: u8,
        reason: u8,
    },
    // The desk that gets it presses (`order` is 1) or no longer does.
    PressNotice {
        kind: u8,
        order: u8,
    },
    // A mobile talks, or no longer does.
    CallerNotice {
        kind: u8,
        base: u8,
        number: Number,
        order: u8,
    },
    CaptureReply {
        result: u8,
    },
    CaptureState {
        holder: u8,
        state: u8,
    },
    // A mobile rings the desk that gets it.
    RingNotice {
        number: Number,
    },
    // Whether the ring answer of the desk that gets it was taken.
    AnswerReply {
        result: u8,
    },
    // Whether the desk that gets it answered the mobile that rang it.
    CallResult {
        result: u8,
    },
}

// One record to every desk of a set, lowest first. To the empty set nothing is sent.
#[derive(Clone, Copy)]
pub struct Send {
    pub recipients: u8,
    pub notice: Notice,
}

// A channel after an event, and what the event sends: in the rule's order, with sends to the empty set where the rule
// sends nothing.
#[derive(Clone, Copy)]
pub struct Moved {
    pub next: Channel,
    pub sends: [Send; 7],
}

// What a tick does to the timers: none falls, one of them falls to so many seconds, or one runs out.
#[derive(Clone, Copy)]
pub enum Falling {
    Still,
    Ring(u8),
    Quiet(u8),
    Release(u8),
    Due,
}
