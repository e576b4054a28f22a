// The state of a line set, and what an entry asks of it.
ghost use Rattle.std.specs.Prelude.{◌≡◌};
ghost use Rattle.set_state.specs.State.{new_link, time_told, answered, no_desk, new_set};
ghost use Rattle.set_state.specs.Entry.{number_of, refusal_in, count_in, desk_from, channel_from};

use channel::{Channel, Event};
use telegram::{Number, Ring};

// A desk's command link, by its phase: 1 waits for the time, 2 for the operation answer, 3 is running. A number and no enum: memory
// that C sees may hold any there, and `plain_set::set_in` gives it on unchanged.
#[derive(Clone, Copy)]
pub struct Link {
    pub phase: u32,
}

impl Link {
    pub fn new() -> Link
        ensures { result ≡ new_link }
    {
        Link { phase: 1 }
    }

    // The desk has told the time.
    pub fn time_told(self) -> Link
        ensures { result ≡ time_told self }
    {
        Link { phase: 2 }
    }

    // The desk has answered: with state 1 it is running.
    pub fn answered(self, state: u32) -> Link
        ensures { result ≡ answered state self }
    {
        if state == 1 { Link { phase: 3 } } else { self }
    }
}

#[derive(Clone, Copy)]
pub struct Desk {
    pub code: u32,
    pub number: Number,
    pub link: Link,
}

impl Desk {
    // What fills the arrays past the plan's desks.
    pub fn none() -> Desk
        ensures { result ≡ no_desk }
    {
        let link = Link::new();
        Desk {
            code: 0,
            number: Number::NONE,
            link,
        }
    }
}

// How many desks and channels the plan has.
#[derive(Clone, Copy)]
pub struct Size {
    pub desks: u8,
    pub channels: u8,
}

// Desks and channels in the order of the plan. Those past the plan's size are there only to fill the arrays. `planned` stands beside
// the size, and no Option around it: memory that C sees may hold any size without a plan, and `plain_set::set_in` gives it on unchanged.
#[derive(Clone, Copy)]
pub struct LineSet {
    pub channels: [Channel; 32],
    pub desks: [Desk; 4],
    pub size: Size,
    pub planned: bool,
}

impl LineSet {
    // A set without a plan.
    pub fn new() -> LineSet
        ensures { result ≡ new_set }
    {
        let channel = Channel::new(0, 0);
        let desk = Desk::none();
        LineSet {
            channels: [channel; 32],
            desks: [desk; 4],
            size: Size {
                desks: 0,
                channels: 0,
            },
            planned: false,
        }
    }
}

// Why an entry is refused, in the order of the numbers (docs/REFERENCE.md, Refusals).
#[derive(Clone, Copy, PartialEq, Eq)]
pub enum Refusal {
    Length,
    Version,
    Payload,
    NoPlan,
    AlreadyPlanned,
    BadPlan,
    UnknownDesk,
    Header,
    Identifier,
    Body,
    Phase,
    NotEntitled,
    WrongNumber,
    NotHolder,
    Again,
    NoRoom,
    CannotRing,
}

impl Refusal {
    // The number that callers in other languages and listings have for it.
    pub fn number(self) -> u8
        ensures { result ≡ number_of self }
    {
        match self {
            Refusal::Length => 1,
            Refusal::Version => 2,
            Refusal::Payload => 3,
            Refusal::NoPlan => 4,
            Refusal::AlreadyPlanned => 5,
            Refusal::BadPlan => 6,
            Refusal::UnknownDesk => 7,
            Refusal::Header => 8,
            Refusal::Identifier => 9,
            Refusal::Body => 10,
            Refusal::Phase => 11,
            Refusal::NotEntitled => 12,
            Refusal::WrongNumber => 13,
            Refusal::NotHolder => 14,
            Refusal::Again => 15,
            Refusal::NoRoom => 16,
            Refusal::CannotRing => 17,
        }
    }
}

// What an entry's bytes ask for. A telegram and a plan stay in the bytes. `on` is a byte as well, of which 1 says on. `number` is a
// mobile's, `called` that of the desk that it calls.
#[derive(Clone, Copy)]
pub enum Entry {
    Telegram {
        desk: u8,
    },
    Press {
        desk: u8,
        channel: u8,
        on: u8,
    },
    Cut {
        desk: u8,
        channel: u8,
    },
    MobileOn {
        channel: u8,
        base: u8,
        number: Option<u32>,
    },
    MobileOff {
        channel: u8,
    },
    Tick,
    Plan,
    Handover,
    MobileCall {
        channel: u8,
        base: u8,
        number: Option<u32>,
        called: Option<u32>,
    },
    MobileCancel {
        channel: u8,
    },
}

impl Entry {
    // The desk that it comes from, 0 where it comes from none.
    pub fn desk(self) -> u8
        ensures { result ≡ desk_from self }
    {
        match self {
            Entry::Telegram { desk } => desk,
            Entry::Press { desk, .. } => desk,
            Entry::Cut { desk, .. } => desk,
            _ => 0,
        }
    }

    // The channel that it names, 0 where it names none.
    pub fn channel(self) -> u8
        ensures { result ≡ channel_from self }
    {
        match self {
            Entry::Press { channel, .. } => channel,
            Entry::Cut { channel, .. } => channel,
            Entry::MobileOn { channel, .. } => channel,
            Entry::MobileOff { channel } => channel,
            Entry::MobileCall { channel, .. } => channel,
            Entry::MobileCancel { channel } => channel,
            _ => 0,
        }
    }
}

// What a desk says of its link.
#[derive(Clone, Copy)]
pub enum LinkRequest {
    // 550411: the time, which the set does not keep.
    TellsTime,
    // 550421: whether the desk operates.
    TellsState { state: u32 },
}

// What a desk asks by telegram.
#[derive(Clone, Copy)]
pub enum Request {
    OfLink(LinkRequest),
    // What is to happen on a channel, if the number is the desk's own.
    OnChannel {
        channel: u32,
        number: Number,
        event: Event,
    },
    // The answer to a ring, as the telegram has it.
    AnswersRing(Ring),
    // A telegram that no desk sends.
    Foreign,
}

// The answer to an entry: the set after it, and the bytes written, or why it was refused.
#[derive(Clone, Copy)]
pub struct Answer {
    pub set: LineSet,
    pub reply: Result<usize, Refusal>,
}

// The refusal number of a reply, 0 if the entry was accepted.
pub fn refusal_number(reply: Result<usize, Refusal>) -> u8
    ensures { result ≡ refusal_in reply }
{
    match reply {
        Ok(_) => 0,
        Err(refusal) => refusal.number(),
    }
}

// The bytes that a reply says were written, 0 if the entry was refused.
pub fn bytes_written(reply: Result<usize, Refusal>) -> usize
    ensures { result ≡ count_in reply }
{
    match reply {
        Ok(count) => count,
        Err(_) => 0,
    }
}
