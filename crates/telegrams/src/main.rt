// Telegrams from standard input, each after its length (2 bytes, big-endian). For each it prints a line: 0 and the
// telegram as the writer writes the message that was read, or the refusal number alone. A telegram that breaks off
// gets no line.
#![tactic(auto)]

mod line;

ghost use Rattle.std.specs.Prelude.{◌≡◌, ◌+◌, ◌^◌, ◌≤◌, ◌<◌, length, is_some, IfSome, IfNone, OnOk};
ghost use Rattle.std.specs.Io.KnownBytes.{Appends};
ghost use Rattle.text.specs.Written.{Puts};
ghost use Rattle.telegrams.specs.Lines.{whole, frame_line, telegram_lines};
ghost use Rattle.telegrams.specs.Promises.{Bytes};

use std::io::{Read, Write};
use streams::{Failure, Place};

// Two bytes count no more.
const LONGEST: usize = 65535;

// Whether a frame has all the bytes that its length counts.
fn is_whole(frame: &[u8]) -> bool
    ensures { result ≡ whole frame.now }
{
    frames::word(frame) + 2 == frame.len()
}

// Puts the line for a frame behind the text that waits, and gives how much waits then. For one that breaks off it puts nothing and
// gives None, and the program stops there.
fn show(frame: &[u8], text: &mut [u8], waits: usize) -> Option<usize>
    requires { waits + 64 ≤ length text.old }
    ensures stops { is_some result ≡ whole frame.now }
    ensures some { IfSome result (λ n. (n ≤ length text.new) × Puts text.old waits (frame_line frame.now) text.new n) }
    ensures none { IfNone result (text.new ≡ text.old) }
{
    let whole = is_whole(frame);
    if !whole {
        return None;
    }
    Some(line::put_line(&frame[2..], text, waits))
}

// Prints the line of each telegram that the reader gives, up to one that breaks off, unless a read or a write fails.
pub fn run<R: Read, W: Write>(
    reader: &mut R,
    writer: &mut W,
    input: &mut [u8],
    text: &mut [u8],
) -> Result<(), Failure>
    requires { (65537 ≤ length input.old) × (64 ≤ length text.old) }
    ensures { OnOk result (IfSome (R.remaining reader.old) (λ given. Bytes given → length given < 2 ^ 64 → Appends (W.contents writer.old) (W.contents writer.new) (telegram_lines given))) }
{
    let mut at = Place::new();
    for _ in 0..u64::MAX {
        let Some(next) = streams::next(reader, writer, at, LONGEST, line::ROOM, input, text)? else {
            return Ok(());
        };
        at = next;
        let Some(waits) = show(&input[at.from..at.to], text, at.waits) else {
            break;
        };
        at.waits = waits;
    }
    streams::write_out(writer, &text[..at.waits])
}

fn main(rt: HostRuntime) {
    let mut input = [0u8; 131072];
    let mut text = [0u8; 65536];
    let done = run(&mut rt.stdin(), &mut rt.stdout(), &mut input, &mut text);
    if let Err(failure) = done {
        // where this cannot be said, there is nobody to tell
        let _ = streams::say(&mut rt.stderr(), &failure);
    }
}
