// A call of the system that failed, and what is said of it on standard error.
ghost use Rattle.std.specs.Prelude.{◌≡◌, ◌≢◌, ◌+◌, ◌≤◌, length, OnOk};
ghost use Rattle.std.specs.Io.KnownBytes.{Appends, Keeps};
ghost use Rattle.std.specs.IoError.{error_kind, raw_os_error};
ghost use Rattle.std.specs.declared.io.ErrorKind.TheVariants.{BrokenPipe};
ghost use Rattle.text.specs.Written.{Puts};
ghost use Rattle.streams.specs.Failures.{error_number, number_or_0, failure_line, error_line, cause, message};

use super::place::Place;
use std::io;
use std::io::{ErrorKind, Write};

// The input cannot be read, or the output cannot be written.
#[derive(Drop)]
pub enum Failure {
    Unreadable(io::Error),
    Unwritable(io::Error),
}

// A call that failed, and where the program stands then.
#[derive(Drop)]
pub struct Stopped {
    pub failure: Failure,
    pub at: Place,
}

impl From<Stopped> for Failure {
    ghost from_gives = { λ s e. e ≡ s.failure };

    fn from(stopped: Stopped) -> Failure {
        stopped.failure
    }
}

// What cannot be done, and the system's number of the error.
fn put_failure(what: &[u8], error: u64, text: &mut [u8]) -> usize
    requires { length what.now + 29 ≤ length text.old }
    ensures { (result ≤ length text.new) × Puts text.old 0 (failure_line what.now error) text.new result }
{
    let first = text::put_bytes(what, text, 0);
    let second = text::put_bytes(b": error ", text, first);
    text::put_item(error, b'\n', text, second)
}

// The system has no error of a number below 0.
fn not_below_zero(error: i32) -> u64
    ensures { result ≡ error_number error }
{
    if error < 0 {
        return 0;
    }
    error as u64
}

// The system's number of an error, or 0 for one of std's own: a write that took nothing, and no end of interrupted calls.
fn number_of(error: &io::Error) -> u64
    ensures { result ≡ number_or_0 (raw_os_error error.now) }
{
    match error.raw_os_error() {
        Some(number) => not_below_zero(number),
        None => 0,
    }
}

// Says that a call has failed. Where whoever read the output has gone, there is nobody to tell.
fn say_what<E: Write>(errors: &mut E, what: &[u8], error: &io::Error) -> io::Result<()>
    requires { length what.now ≤ 35 }
    ensures gone { error_kind error.now ≡ BrokenPipe → Keeps (E.contents errors.old) (E.contents errors.new) }
    ensures said { error_kind error.now ≢ BrokenPipe → OnOk result (Appends (E.contents errors.old) (E.contents errors.new) (error_line what.now error.now)) }
{
    let gone = error.kind() == ErrorKind::BrokenPipe;
    if gone {
        return Ok(());
    }
    let mut text = [0u8; 64];
    let n = put_failure(what, number_of(error), &mut text);
    errors.write_all(&text[..n])
}

// Says on standard error which call failed, unless whoever read the output has gone.
pub fn say<E: Write>(errors: &mut E, failure: &Failure) -> io::Result<()>
    ensures gone { error_kind (cause failure.now) ≡ BrokenPipe → Keeps (E.contents errors.old) (E.contents errors.new) }
    ensures said { error_kind (cause failure.now) ≢ BrokenPipe → OnOk result (Appends (E.contents errors.old) (E.contents errors.new) (message failure.now)) }
{
    match failure {
        Failure::Unreadable(error) => say_what(errors, b"standard input cannot be read", error),
        Failure::Unwritable(error) => say_what(errors, b"standard output cannot be written", error),
    }
}
