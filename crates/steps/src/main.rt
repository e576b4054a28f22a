// A whole feed from standard input, stepped as many times as the one argument says, each time through a new set; once if
// there is no argument. Then one line: the entries stepped in a round, how many the last round accepted, and the bytes
// of the records it wrote. A round stops at the end of the feed, or after an entry refused with 1. The benchmark takes
// the time of some rounds from that of more, so nothing else is done on the way.
#![tactic(auto)]

mod argument;
mod rounds;

use rounds::Round;
use std::env::Env;
use std::io::{Read, Write};
use streams::Failure;

// Writes the line of a round.
fn print<W: Write>(writer: &mut W, round: Round) -> Result<(), Failure> {
    let mut text = [0u8; 64];
    let waits = rounds::put_round(round, &mut text);
    streams::write_out(writer, &text[..waits])
}

// Reads the whole feed before the first round. Of one that is larger than the room only that much is stepped.
fn step_input<R: Read, E: Write>(
    reader: &mut R,
    errors: &mut E,
    room: &mut [u8],
    rounds: u64,
    buffer: &mut [u8],
) -> Round {
    let size = streams::read_all(reader, errors, room);
    rounds::last_round(&room[..size], rounds, buffer)
}

// The room goes through a parameter of its own type, so that its length is known by that: to count 4,194,304 zeros takes
// the check more memory than it has.
fn step_large<R: Read, E: Write>(
    reader: &mut R,
    errors: &mut E,
    room: &mut [u8; 4194304],
    rounds: u64,
    buffer: &mut [u8],
) -> Round {
    step_input(reader, errors, room, rounds, buffer)
}

// The buffer is lent to C first, for the argument: the compiler then can't know that nobody reads what the steps write
// to it, and drop that.
fn main(rt: HostRuntime) {
    let mut errors = rt.stderr();
    let mut room = [0u8; 4194304];
    let mut buffer = [0u8; 32768];
    let rounds = match Env::arg(&rt, 1, &mut buffer) {
        Ok(n) => argument::rounds(&buffer[..n]),
        Err(_) => argument::rounds(&[]),
    };
    let round = step_large(&mut rt.stdin(), &mut errors, &mut room, rounds, &mut buffer);
    if let Err(failure) = print(&mut rt.stdout(), round) {
        // where this cannot be said, there is nobody to tell
        let _ = streams::say(&mut errors, &failure);
    }
}
