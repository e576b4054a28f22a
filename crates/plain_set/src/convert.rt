// A set out of the numbers that it is kept as, and back.
ghost use Rattle.std.specs.Prelude.{◌≡◌, cond, map};
ghost use Rattle.plain_set.specs.Plain.{party_in, call_in, arrival_in, channel_in, desk_in, set_in, party_of, call_of, arrival_of, channel_of, desk_of, plain_of};

use super::plain::{
    PlainArrival, PlainCall, PlainChannel, PlainDesk, PlainParty, PlainSet, PlainSize,
};
use channel::{Arrival, Call, Channel};
use set_state::{Desk, LineSet, Link, Size};
use telegram::Number;

// Functions and not From, here and below: their contract is the equation itself, and the law of From would say no more.
fn party_in(p: PlainParty) -> Option<u8>
    ensures { result ≡ party_in p }
{
    if p.held == 1 { Some(p.desk) } else { None }
}

fn call_in(p: PlainCall) -> Option<Call>
    ensures { result ≡ call_in p }
{
    if p.opened != 1 {
        return None;
    }
    Some(Call {
        kind: p.kind,
        direction: p.direction,
        recipients: p.recipients,
        base: p.base,
        source: Number::new(p.source),
    })
}

fn arrival_in(p: PlainArrival) -> Option<Arrival>
    ensures { result ≡ arrival_in p }
{
    if p.present != 1 {
        return None;
    }
    Some(Arrival {
        kind: p.kind,
        recipients: p.recipients,
        base: p.base,
        number: Number::new(p.number),
    })
}

fn channel_in(p: PlainChannel) -> Channel
    ensures { result ≡ channel_in p }
{
    Channel {
        code: p.code,
        entitled: p.entitled,
        holder: party_in(p.holder),
        presser: party_in(p.presser),
        quiet: p.quiet,
        release: p.release,
        ring: p.ring,
        call: call_in(p.call),
        arrival: arrival_in(p.arrival),
    }
}

fn desk_in(p: PlainDesk) -> Desk
    ensures { result ≡ desk_in p }
{
    Desk {
        code: p.code,
        number: Number { digits: p.number },
        link: Link { phase: p.phase },
    }
}

// By places, here and in the three like it: an array's `map` made the archive's `plain_of` slower by 21 % of its instructions
// (callgrind), since it copies the array first.
fn channels_in(plain: [PlainChannel; 32]) -> [Channel; 32]
    ensures { result ≡ map channel_in plain }
{
    let mut channels = [channel_in(plain[0]); 32];
    for i in 0..32 {
        channels[i] = channel_in(plain[i]);
    }
    channels
}

fn desks_in(plain: [PlainDesk; 4]) -> [Desk; 4]
    ensures { result ≡ map desk_in plain }
{
    let mut desks = [desk_in(plain[0]); 4];
    for i in 0..4 {
        desks[i] = desk_in(plain[i]);
    }
    desks
}

// The set that the numbers are.
pub fn set_in(p: PlainSet) -> LineSet
    ensures { result ≡ set_in p }
{
    LineSet {
        channels: channels_in(p.channels),
        desks: desks_in(p.desks),
        size: Size {
            desks: p.size.desks,
            channels: p.size.channels,
        },
        planned: p.planned == 1,
    }
}

fn flag(b: bool) -> u8
    ensures { result ≡ cond b 1 0 }
{
    if b { 1 } else { 0 }
}

fn party_of(party: Option<u8>) -> PlainParty
    ensures { result ≡ party_of party }
{
    match party {
        None => PlainParty { held: 0, desk: 0 },
        Some(desk) => PlainParty { held: 1, desk },
    }
}

fn call_of(call: Option<Call>) -> PlainCall
    ensures { result ≡ call_of call }
{
    match call {
        None => PlainCall {
            source: 0,
            base: 0,
            opened: 0,
            kind: 0,
            direction: 0,
            recipients: 0,
            spare: 0,
        },
        Some(open) => PlainCall {
            source: open.source.digits,
            base: open.base,
            opened: 1,
            kind: open.kind,
            direction: open.direction,
            recipients: open.recipients,
            spare: 0,
        },
    }
}

fn arrival_of(arrival: Option<Arrival>) -> PlainArrival
    ensures { result ≡ arrival_of arrival }
{
    let tail = [0; 3];
    match arrival {
        None => PlainArrival {
            number: 0,
            base: 0,
            spare: 0,
            present: 0,
            kind: 0,
            recipients: 0,
            tail,
        },
        Some(talking) => PlainArrival {
            number: talking.number.digits,
            base: talking.base,
            spare: 0,
            present: 1,
            kind: talking.kind,
            recipients: talking.recipients,
            tail,
        },
    }
}

fn channel_of(c: Channel) -> PlainChannel
    ensures { result ≡ channel_of c }
{
    PlainChannel {
        call: call_of(c.call),
        arrival: arrival_of(c.arrival),
        holder: party_of(c.holder),
        presser: party_of(c.presser),
        code: c.code,
        entitled: c.entitled,
        quiet: c.quiet,
        release: c.release,
        ring: c.ring,
        spare: [0; 3],
    }
}

fn desk_of(d: Desk) -> PlainDesk
    ensures { result ≡ desk_of d }
{
    PlainDesk {
        code: d.code,
        number: d.number.digits,
        phase: d.link.phase,
    }
}

fn channels_of(channels: [Channel; 32]) -> [PlainChannel; 32]
    ensures { result ≡ map channel_of channels }
{
    let mut plain = [channel_of(channels[0]); 32];
    for i in 0..32 {
        plain[i] = channel_of(channels[i]);
    }
    plain
}

fn desks_of(desks: [Desk; 4]) -> [PlainDesk; 4]
    ensures { result ≡ map desk_of desks }
{
    let mut plain = [desk_of(desks[0]); 4];
    for i in 0..4 {
        plain[i] = desk_of(desks[i]);
    }
    plain
}

// The numbers that a set is kept as, in memory that begins so.
pub fn plain_of(layout: [u8; 4], set: LineSet) -> PlainSet
    ensures { result ≡ plain_of layout set }
{
    PlainSet {
        layout,
        channels: channels_of(set.channels),
        desks: desks_of(set.desks),
        size: PlainSize {
            desks: set.size.desks,
            channels: set.size.channels,
        },
        planned: flag(set.planned),
        spare: 0,
    }
}
