// Entries: the length, the version, the kind, and what the kind's payload has.
ghost use Rattle.std.specs.Prelude.{◌≡◌, leb};
ghost use Rattle.set_rules.specs.Entries.{measured, read_entry};
ghost use Rattle.entries.specs.Payloads.{payload_in, line_in, bare_in};

use set_state::{Entry, Refusal};

// The telegram itself stays in the bytes.
fn read_telegram(entry: &[u8]) -> Result<Entry, Refusal>
    ensures { result ≡ payload_in 1 entry.now }
{
    if entry.len() < 5 {
        return Err(Refusal::Payload);
    }
    Ok(Entry::Telegram { desk: entry[4] })
}

fn read_press(entry: &[u8]) -> Result<Entry, Refusal>
    ensures { result ≡ payload_in 2 entry.now }
{
    if entry.len() != 7 {
        return Err(Refusal::Payload);
    }
    let on = entry[6];
    let unknown = 1 < on;
    if unknown {
        return Err(Refusal::Payload);
    }
    let desk = entry[4];
    let channel = entry[5];
    Ok(Entry::Press { desk, channel, on })
}

fn read_cut(entry: &[u8]) -> Result<Entry, Refusal>
    ensures { result ≡ payload_in 3 entry.now }
{
    if entry.len() != 6 {
        return Err(Refusal::Payload);
    }
    Ok(Entry::Cut {
        desk: entry[4],
        channel: entry[5],
    })
}

// There are 30 bases.
fn is_base(base: u8) -> bool
    ensures { result ≡ leb base 29 }
{
    base <= 29
}

// A number that is no eight digits is refused later, by 13.
fn read_mobile_on(entry: &[u8]) -> Result<Entry, Refusal>
    ensures { result ≡ payload_in 4 entry.now }
{
    if entry.len() != 14 {
        return Err(Refusal::Payload);
    }
    let channel = entry[4];
    let base = entry[5];
    if !is_base(base) {
        return Err(Refusal::Payload);
    }
    let number = numerals::read_digits(&entry[6..14]);
    Ok(Entry::MobileOn {
        channel,
        base,
        number,
    })
}

// The mobile's number and the called one are judged later, by 13.
fn read_mobile_call(entry: &[u8]) -> Result<Entry, Refusal>
    ensures { result ≡ payload_in 9 entry.now }
{
    let other = entry.len() != 22;
    if other {
        return Err(Refusal::Payload);
    }
    let channel = entry[4];
    let base = entry[5];
    if !is_base(base) {
        return Err(Refusal::Payload);
    }
    let number = numerals::read_digits(&entry[6..14]);
    let called = numerals::read_digits(&entry[14..22]);
    Ok(Entry::MobileCall {
        channel,
        base,
        number,
        called,
    })
}

// The channel of a mobile off or a mobile cancel.
fn read_line(entry: &[u8]) -> Result<u8, Refusal>
    ensures { result ≡ line_in entry.now }
{
    if entry.len() != 5 {
        return Err(Refusal::Payload);
    }
    Ok(entry[4])
}

// A tick or a handover: no payload.
fn read_bare(bare: Entry, entry: &[u8]) -> Result<Entry, Refusal>
    ensures { result ≡ bare_in bare entry.now }
{
    if entry.len() != 4 {
        return Err(Refusal::Payload);
    }
    Ok(bare)
}

// A plan is judged later, by 6.
fn read_payload(kind: u8, entry: &[u8]) -> Result<Entry, Refusal>
    ensures { result ≡ payload_in kind entry.now }
{
    match kind {
        1 => read_telegram(entry),
        2 => read_press(entry),
        3 => read_cut(entry),
        4 => read_mobile_on(entry),
        5 => Ok(Entry::MobileOff {
            channel: read_line(entry)?,
        }),
        6 => read_bare(Entry::Tick, entry),
        7 => Ok(Entry::Plan),
        8 => read_bare(Entry::Handover, entry),
        9 => read_mobile_call(entry),
        10 => Ok(Entry::MobileCancel {
            channel: read_line(entry)?,
        }),
        _ => Err(Refusal::Payload),
    }
}

// Whether the length at the front is that of the bytes after it.
fn is_measured(entry: &[u8]) -> bool
    ensures { result ≡ measured entry.now }
{
    if entry.len() < 4 {
        return false;
    }
    let length = frames::word(entry);
    (length + 2 == entry.len()) & (length <= 12000)
}

// What an entry's bytes ask for, or refusal 1, 2 or 3.
pub fn read_entry(entry: &[u8]) -> Result<Entry, Refusal>
    ensures { result ≡ read_entry entry.now }
{
    if !is_measured(entry) {
        return Err(Refusal::Length);
    }
    let other = entry[2] != 1;
    if other {
        return Err(Refusal::Version);
    }
    read_payload(entry[3], entry)
}
