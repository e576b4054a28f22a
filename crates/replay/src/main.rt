// Entries from standard input, one after another. For each it prints a line: E, the entry's number from 1, the refusal
// number, and the count of bytes written. After it comes a line for each record: T, the desk and a telegram, or C, the
// desk, the contact, the channel and on. It stops at the end of the input, or after an entry refused with 1.
#![tactic(auto)]

mod turns;

ghost use Rattle.std.specs.Prelude.{◌≡◌, ◌^◌, ◌≤◌, ◌<◌, length, IfSome, OnOk};
ghost use Rattle.std.specs.Io.KnownBytes.{Appends};
ghost use Rattle.feeds.specs.Listing.{listing_of};

use set_state::LineSet;
use std::io::{Read, Write};
use streams::{Failure, Place};

// No entry has more bytes behind its length.
const LONGEST: usize = 12000;

// Prints the listing of the feed that the reader gives, unless a read or a write fails. One set for the whole run: it lies here,
// and is lent to each entry in turn.
pub fn run<R: Read, W: Write>(
    reader: &mut R,
    writer: &mut W,
    input: &mut [u8],
    records: &mut [u8],
    text: &mut [u8],
) -> Result<(), Failure>
    requires { (12002 ≤ length input.old) × (length records.old ≡ 32768) × (73776 ≤ length text.old) }
    ensures { OnOk result (IfSome (R.remaining reader.old) (λ feed. length feed < 2 ^ 64 → Appends (W.contents writer.old) (W.contents writer.new) (listing_of feed))) }
{
    let mut set = LineSet::new();
    let mut at = Place::new();
    // as `telegrams::run` loops: a closure for the step would need a contract on the set and the records, longer than the loop
    for _ in 0..u64::MAX {
        let Some(next) = streams::next(
            reader,
            writer,
            at,
            LONGEST,
            answer_lines::ROOM,
            input,
            text,
        )?
        else {
            return Ok(());
        };
        at = next;
        let reply = lent_set::step_in(&mut set, &input[at.from..at.to], records);
        at.waits = turns::show(at, reply, records, text);
        let last = turns::is_last(reply);
        if last {
            break;
        }
    }
    streams::write_out(writer, &text[..at.waits])
}

fn main(rt: HostRuntime) {
    let mut input = [0u8; 131072];
    let mut records = [0u8; 32768];
    let mut text = [0u8; 131072];
    let done = run(
        &mut rt.stdin(),
        &mut rt.stdout(),
        &mut input,
        &mut records,
        &mut text,
    );
    if let Err(failure) = done {
        // where this cannot be said, there is nobody to tell
        let _ = streams::say(&mut rt.stderr(), &failure);
    }
}
