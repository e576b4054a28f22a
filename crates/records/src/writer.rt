// Records written into a lent buffer. `buffer` and `at` stay two parameters: `put` and `put_to` promise by them (`PutAt`).
ghost use Rattle.std.specs.Prelude.{◌≡◌, [], ◌∷◌, ◌++◌, ◌+◌, ◌-◌, ◌≤◌, length};
ghost use Rattle.set_state.specs.State.{own_of};
ghost use Rattle.set_rules.specs.Records.{record_for, records_of, delivered};
ghost use Rattle.bodies.specs.Bodies.{body_for, delivery, delivery_of, own_end, numbered_for};
ghost use Rattle.records.specs.Emitting.{written, PutAt, head_bytes, rest_bytes, to_one};

use super::prepared::Prepared;
use bodies::{Body, Own, Shape};
use channel::Send;
use set_state::Desk;
use telegram::Number;

// What kind of content a record has.
const TELEGRAM: u8 = 1;

const CONTACT: u8 = 2;

// The head of a record of so many bytes: how many follow the length, the version, the desk, and what kind of content it is.
fn put_head(buffer: &mut [u8], size: usize, d: u8, kind: u8)
    requires { (2 ≤ size) × (size ≤ 51) × (5 ≤ length buffer.old) }
    ensures { buffer.new ≡ written buffer.old 0 (head_bytes (size - 2) d kind) }
{
    buffer[0] = 0;
    buffer[1] = (size - 2) as u8;
    buffer[2] = 1;
    buffer[3] = d;
    buffer[4] = kind;
}

// A record that holds a contact.
fn put_contact(buffer: &mut [u8], d: u8, kind: u8, channel: u8, on: u8)
    requires { 8 ≤ length buffer.old }
    ensures { buffer.new ≡ written buffer.old 0 (head_bytes 6 d 2 ++ (kind ∷ channel ∷ on ∷ [])) }
{
    put_head(buffer, 8, d, CONTACT);
    buffer[5] = kind;
    buffer[6] = channel;
    buffer[7] = on;
}

// The own number of desk d, in a telegram that shows it.
fn put_own(part: &mut [u8], own: Own, d: u8, number: Number)
    requires { own_end own ≤ length part.old }
    ensures { part.new ≡ numbered_for own d number part.old }
{
    match own {
        Own::Nobody => {}
        Own::Everyone { at } => telegram_copies::put_number(part, at, number.digits),
        Own::Holder(holder) => {
            if holder == d {
                telegram_copies::put_number(part, 20, number.digits);
            }
        }
    }
}

impl Prepared {
    // The telegram to desk d.
    fn put_telegram(&self, part: &mut [u8], desk: Desk, d: u8, own: Own, size: usize)
        requires { (self.now.shape ≡ Shape.Telegram own size) × (size ≤ 5 + length part.old) }
        ensures { part.new ≡ written part.old 0 (rest_bytes desk.code (body_for d desk.number self.now.body)) }
    {
        telegram_copies::put_form(&self.form, size - 5, desk.code, part);
        put_own(part, own, d, desk.number);
    }

    // The record to desk d, and how long it is.
    fn put_record(&self, buffer: &mut [u8], desks: [Desk; 4], d: u8) -> usize
        requires { length (record_for desks d (body_for d (own_of desks d) self.now.body)) ≤ length buffer.old }
        ensures { (result ≡ length (record_for desks d (body_for d (own_of desks d) self.now.body))) × (buffer.new ≡ written buffer.old 0 (record_for desks d (body_for d (own_of desks d) self.now.body))) }
    {
        match self.shape {
            Shape::Contact { kind, channel, on } => {
                put_contact(buffer, d, kind, channel, on);
                8
            }
            Shape::Telegram { own, size } => {
                let desk = set_state::desk_at(desks, d);
                put_head(buffer, size, d, TELEGRAM);
                self.put_telegram(&mut buffer[5..], desk, d, own, size);
                size
            }
        }
    }

    // The record to desk d, if the lowest bit of m says that it is told.
    fn put_one(&self, buffer: &mut [u8], at: usize, desks: [Desk; 4], d: u8, m: u8) -> usize
        requires { at + length (to_one desks d m self.now.body) ≤ length buffer.old }
        ensures { PutAt at (to_one desks d m self.now.body) result buffer.old buffer.new }
    {
        if m % 2 == 1 {
            return at + self.put_record(&mut buffer[at..], desks, d);
        }
        at
    }

    // The records to the desks of a set, lowest first: m is the set without the places before d.
    fn put_each(&self, buffer: &mut [u8], at: usize, desks: [Desk; 4], recipients: u8) -> usize
        requires { at + length (records_of desks (delivery desks recipients self.now.body ∷ [])) ≤ length buffer.old }
        ensures { PutAt at (records_of desks (delivery desks recipients self.now.body ∷ [])) result buffer.old buffer.new }
    {
        let mut p = at;
        let mut m = recipients;
        for d in 0..8 {
            p = self.put_one(buffer, p, desks, d, m);
            m /= 2;
        }
        p
    }
}

// Writes one body to the desks of a set, lowest first, from a place on, and gives the place behind.
pub fn put_to(buffer: &mut [u8], at: usize, desks: [Desk; 4], recipients: u8, body: Body) -> usize
    requires { at + length (records_of desks (delivery desks recipients body ∷ [])) ≤ length buffer.old }
    ensures { PutAt at (records_of desks (delivery desks recipients body ∷ [])) result buffer.old buffer.new }
{
    let prepared = Prepared::new(body);
    prepared.put_each(buffer, at, desks, recipients)
}

// One send of a channel. Nothing is built for a send to nobody.
fn put_send(buffer: &mut [u8], at: usize, desks: [Desk; 4], channel: u8, s: Send) -> usize
    requires { at + length (records_of desks (delivery_of desks channel s ∷ [])) ≤ length buffer.old }
    ensures { PutAt at (records_of desks (delivery_of desks channel s ∷ [])) result buffer.old buffer.new }
{
    if s.recipients != 0 {
        let notice = s.notice;
        let body = Body::About { channel, notice };
        return put_to(buffer, at, desks, s.recipients, body);
    }
    at
}

// Writes what a channel sends, send by send.
pub fn put(buffer: &mut [u8], at: usize, desks: [Desk; 4], channel: u8, sends: [Send; 7]) -> usize
    requires { at + length (records_of desks (delivered desks channel sends)) ≤ length buffer.old }
    ensures { PutAt at (records_of desks (delivered desks channel sends)) result buffer.old buffer.new }
{
    let mut p = at;
    for s in sends {
        p = put_send(buffer, p, desks, channel, s);
    }
    p
}
