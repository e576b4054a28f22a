// What an entry asks of the set about one desk's link or one channel.
ghost use Rattle.std.specs.Prelude.{◌≡◌, Bool, cond, ◌≤◌, ltb};
ghost use Rattle.channel.specs.declared.state.Channel.{Channel};
ghost use Rattle.set_state.specs.Entry.{numbered};
ghost use Rattle.set_rules.specs.Entries.{entry_kind};
ghost use Rattle.set_rules.specs.Refusals.{is_kind, from_desk, phase_of, number_in};
ghost use Rattle.requests.specs.Asking.{seen, in_phase, ring_of, event_of, asked_of};

use channel::Event;
use set_state::{Desk, Entry, LinkRequest, Refusal, Request};
use telegram::Number;
use telegram_requests::{Asked, LineRequest};

// Where an entry of so many bytes has its telegram. One that was read has the five bytes before it; in fewer it is empty.
fn telegram_start(length: usize) -> usize
    ensures { (result ≡ cond (ltb length 5) length 5) × (result ≤ length) }
{
    if length < 5 { length } else { 5 }
}

fn number_in(number: Option<u32>) -> Number
    ensures { result ≡ number_in number }
{
    match number {
        Some(v) => Number::new(v),
        None => Number::NONE,
    }
}

// A mobile that calls one of n desks.
fn ring_of(base: u8, number: Option<u32>, called: Option<u32>, desks: [Desk; 4], n: u8) -> Event
    ensures { result ≡ ring_of desks n called base number }
{
    let called = number_in(called);
    let place = set_state::desk_place(desks, n, called);
    let number = number_in(number);
    Event::Ring {
        desk: place,
        base,
        number,
    }
}

// What an entry that is no telegram makes happen, if its desk has this number. Only a mobile call looks at the n desks.
fn event_of(x: Entry, own: Number, desks: [Desk; 4], n: u8) -> Event
    ensures { result ≡ event_of desks n (Ok x) own }
{
    match x {
        Entry::Press { desk, on, .. } => {
            if on == 1 {
                Event::PressOn { desk, number: own }
            } else {
                Event::PressOff
            }
        }
        Entry::Cut { .. } => Event::Cut,
        Entry::MobileOn { base, number, .. } => {
            let number = number_in(number);
            Event::MobileOn { base, number }
        }
        Entry::MobileCall {
            base,
            number,
            called,
            ..
        } => ring_of(base, number, called, desks, n),
        Entry::MobileCancel { .. } => Event::Cancel,
        _ => Event::MobileOff,
    }
}

// The phase that a link has to be in for what is said of it.
fn link_phase(request: LinkRequest) -> u32
    ensures { result ≡ phase_of (Request.OfLink request) }
{
    match request {
        LinkRequest::TellsTime => 1,
        LinkRequest::TellsState { state } => 2,
    }
}

// What is asked, or 11 if the link is in another phase than it needs.
fn if_ready(ready: bool, asked: Asked) -> Result<Asked, Refusal>
    ensures { numbered result ≡ cond ready (Ok asked) (Err 11) }
{
    if ready {
        Ok(asked)
    } else {
        Err(Refusal::Phase)
    }
}

// What is asked, if the desk's link is in the phase that it needs.
fn in_phase(phase: u32, asked: Asked) -> Result<Asked, Refusal>
    ensures { numbered result ≡ in_phase phase (Ok asked) }
{
    match asked {
        Asked::OfLink(request) => if_ready(phase == link_phase(request), asked),
        Asked::OfLine(_) => if_ready(phase == 3, asked),
    }
}

fn is_telegram(x: Entry) -> bool
    ensures { result ≡ is_kind 1 (Ok x) }
{
    match x {
        Entry::Telegram { .. } => true,
        _ => false,
    }
}

// The kinds that come from a desk.
fn is_from_desk(x: Entry) -> bool
    ensures { result ≡ from_desk (Ok x) }
{
    match x {
        Entry::Telegram { .. } => true,
        Entry::Press { .. } => true,
        Entry::Cut { .. } => true,
        _ => false,
    }
}

// What an entry that was read asks.
fn asked_of_entry(
    x: Entry,
    planned: bool,
    entry: &[u8],
    desks: [Desk; 4],
    n: u8,
) -> Result<Asked, Refusal>
    ensures { (found : Bool) (c : Channel) → (entry_kind (Ok x) ≡ 7 → ⊥) → numbered result ≡ asked_of (seen planned desks n found c) entry.now (Ok x) }
{
    if !planned {
        return Err(Refusal::NoPlan);
    }
    let d = x.desk();
    let from_desk = is_from_desk(x);
    if from_desk & (n <= d) {
        return Err(Refusal::UnknownDesk);
    }
    let desk = set_state::desk_at(desks, d);
    if is_telegram(x) {
        let start = telegram_start(entry.len());
        let asked = telegram_requests::read_request(d, &entry[start..], desk.code)?;
        return in_phase(desk.link.phase, asked);
    }
    if from_desk & (desk.link.phase != 3) {
        return Err(Refusal::Phase);
    }
    let own = desk.number;
    let event = event_of(x, own, desks, n);
    let channel = x.channel();
    Ok(Asked::OfLine(LineRequest::OnChannel {
        code: channel as u32,
        number: Number::NONE,
        event,
    }))
}

// What an entry asks that is about one desk or one channel: any but a plan. Bytes that were refused as they were read ask for nothing.
pub fn asked_of(
    x: Result<Entry, Refusal>,
    planned: bool,
    entry: &[u8],
    desks: [Desk; 4],
    n: u8,
) -> Result<Asked, Refusal>
    ensures { (found : Bool) (c : Channel) → (entry_kind x ≡ 7 → ⊥) → numbered result ≡ asked_of (seen planned desks n found c) entry.now x }
{
    match x {
        Ok(x) => asked_of_entry(x, planned, entry, desks, n),
        Err(refusal) => Err(refusal),
    }
}
