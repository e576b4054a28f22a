// The input, frame by frame.
ghost use Rattle.std.specs.Prelude.{◌≡◌, ◌+◌, ◌-◌, ◌≤◌, ◌<◌, true, false, ◌++◌, length, take, drop, ◌≢◌, [], IfSome, IfNone, IfOk, IfErr, MatchResult};
ghost use Rattle.std.specs.Io.{ReadsAtMost};
ghost use Rattle.std.specs.Io.KnownBytes.{Appends, Consumes, IsAtEnd, ReadConsumes};
ghost use Rattle.frames.specs.Frames.{frame_size};
ghost use Rattle.streams.specs.Places.{Within, FilledBehind, Came, Next, Stays, Stops, between, unread, ended_at, waits_at};
ghost use Rattle.streams.specs.Promises.{came, gained};

use super::failure::{Failure, Stopped};
use super::place::Place;
use super::{failure, place, writing};
use std::io;
use std::io::{ErrorKind, Read, Write};

// Reads once, and again where a signal came before any byte did.
fn read_once<R: Read>(reader: &mut R, buf: &mut [u8]) -> io::Result<usize>
    ensures within { ReadsAtMost result buf.new }
    ensures bytes { ReadConsumes (R.remaining reader.old) (R.remaining reader.new) result buf.new }
{
    for _ in 0..u64::MAX {
        match reader.read(buf) {
            Ok(count) => return Ok(count),
            Err(error) => {
                if error.kind() != ErrorKind::Interrupted {
                    return Err(error);
                }
            }
        }
    }
    Err(io::Error::from(ErrorKind::Interrupted))
}

// Reads once, behind the bytes that are there, and gives how many came: none at the end of the input.
fn read_more<R: Read>(reader: &mut R, input: &mut [u8], have: usize) -> io::Result<usize>
    requires { have ≤ length input.old }
    ensures behind { MatchResult result (λ count. FilledBehind input.old have input.new (have + count)) (λ _. FilledBehind input.old have input.new have) }
    ensures bytes { ReadConsumes (R.remaining reader.old) (R.remaining reader.new) result (drop have input.new) }
{
    read_once(reader, &mut input[have..])
}

// Reads until the input has ended, cannot be read or has no more room, and gives how many bytes came. Its clauses promise these
// where a read failed too, so it gives no `Err`.
pub fn read_all<R: Read, E: Write>(reader: &mut R, errors: &mut E, input: &mut [u8]) -> usize
    ensures filled { FilledBehind input.old 0 input.new result }
    ensures bytes { Consumes (R.remaining reader.old) (R.remaining reader.new) (take result input.new) }
{
    let mut have = 0;
    // bytes are counted here and not turns: a `for` would need a bound of its own
    while have < input.len() {
        match read_more(reader, input, have) {
            Ok(0) => break,
            Ok(count) => have += count,
            Err(error) => {
                // where this cannot be said, there is nobody to tell
                let _ = failure::say(errors, &Failure::Unreadable(error));
                break;
            }
        }
    }
    have
}

// How far the input is filled, and whether it has ended there: a frame's size is asked of both, so neither is the other's `Option`.
#[derive(Clone, Copy)]
struct Filling {
    filled: usize,
    ended: bool,
}

// How far the input is filled where a read has failed.
#[derive(Drop)]
struct Partial {
    filled: usize,
    error: io::Error,
}

// Reads behind the bytes that are there, until they begin with a whole frame or no more come.
fn fill<R: Read>(
    reader: &mut R,
    input: &mut [u8],
    have: usize,
    most: usize,
) -> Result<Filling, Partial>
    requires { (have ≤ length input.old) × (most + 2 ≤ length input.old) × (frame_size most (take have input.old) false ≡ 0) }
    ensures behind { IfOk result (λ f. FilledBehind input.old have input.new f.filled) }
    ensures whole { IfOk result (λ f. f.ended ≡ false → frame_size most (take f.filled input.new) false ≢ 0) }
    ensures bytes { IfOk result (λ f. Consumes (R.remaining reader.old) (R.remaining reader.new) (between have f.filled input.new)) }
    ensures end { IfOk result (λ f. f.ended ≡ true → IsAtEnd (R.remaining reader.new)) }
    ensures partly { IfErr result (λ p. FilledBehind input.old have input.new p.filled × Consumes (R.remaining reader.old) (R.remaining reader.new) (between have p.filled input.new)) }
{
    let mut filled = have;
    // as in `read_all`, bytes are counted
    while filled < input.len() {
        let count = match read_more(reader, input, filled) {
            Ok(count) => count,
            Err(error) => return Err(Partial { filled, error }),
        };
        if count == 0 {
            return Ok(Filling {
                filled,
                ended: true,
            });
        }
        filled += count;
        if 0 < frames::frame_size(&input[..filled], most, false) {
            break;
        }
    }
    Ok(Filling {
        filled,
        ended: false,
    })
}

// Moves the bytes behind the frame to the front, and reads more behind them.
fn refill<R: Read>(
    reader: &mut R,
    at: Place,
    most: usize,
    input: &mut [u8],
) -> Result<Option<Place>, Stopped>
    requires { Within input.old at × (most + 2 ≤ length input.old) × (frame_size most (unread input.old at) false ≡ 0) }
    ensures some { IfOk result (λ r. IfSome r (λ q. Came most input.old at input.new q × (q.waits ≡ at.waits))) }
    ensures none { IfOk result (λ r. IfNone r (unread input.old at ≡ [])) }
    ensures reads { IfOk result (λ r. Consumes (R.remaining reader.old) (R.remaining reader.new) (came input.old at input.new r)) }
    ensures end { IfOk result (λ r. ended_at r ≡ true → IsAtEnd (R.remaining reader.new)) }
    ensures stays { IfErr result (λ s. Stays input.old at input.new s.at × (s.at.waits ≡ at.waits)) }
    ensures gains { IfErr result (λ s. Consumes (R.remaining reader.old) (R.remaining reader.new) (gained input.old at input.new s.at)) }
{
    let have = at.filled - at.to;
    input.copy_within(at.to..at.filled, 0);
    let got = match fill(reader, input, have, most) {
        Ok(got) => got,
        Err(partial) => {
            return Err(Stopped {
                failure: Failure::Unreadable(partial.error),
                at: place::unreadable(at, partial.filled),
            });
        }
    };
    let size = frames::frame_size(&input[..got.filled], most, got.ended);
    let none = size == 0;
    if none {
        return Ok(None);
    }
    Ok(Some(place::at_frame(at, 0, size, got.filled, got.ended)))
}

// The frame behind this one, of at most `most` bytes behind its length, if there is one. The text is written before more is read,
// and where it has no room for another answer. Where the bytes of the reader and of the writer are known: what comes is what the
// reader gives, which has no more once the input has ended, and the text that waited is written or still waits. Where a call failed,
// another may go on from the place that comes with the failure: it is before the same frame, and what was unread is still there, with
// what a read gave before it failed behind it; the text no longer waits, though a write that failed may have left some of it out. The
// buffers are lent apart: in one struct the frame, a slice of `input`, would keep the text from being written.
pub fn next<R: Read, W: Write>(
    reader: &mut R,
    writer: &mut W,
    at: Place,
    most: usize,
    room: usize,
    input: &mut [u8],
    text: &[u8],
) -> Result<Option<Place>, Stopped>
    requires { Within input.old at × (most + 2 ≤ length input.old) × (at.waits ≤ length text.now) × (room ≤ length text.now) }
    ensures next { IfOk result (Next most room (length text.now) input.old at input.new) }
    ensures reads { IfOk result (λ r. Consumes (R.remaining reader.old) (R.remaining reader.new) (came input.old at input.new r)) }
    ensures end { IfOk result (λ r. ended_at r ≡ true → IsAtEnd (R.remaining reader.new)) }
    ensures writes { IfOk result (λ r. Appends (W.contents writer.old) (W.contents writer.new) (take (at.waits - waits_at r) text.now)) }
    ensures stops { IfErr result (λ s. Stops most room (length text.now) input.old at input.new s.at) }
    ensures gains { IfErr result (λ s. Consumes (R.remaining reader.old) (R.remaining reader.new) (gained input.old at input.new s.at)) }
{
    let from = at.to;
    let filled = at.filled;
    let size = frames::frame_size(&input[from..filled], most, false);
    if 0 < size {
        let fits = room <= text.len() - at.waits;
        if fits {
            return Ok(Some(place::at_frame(at, from, from + size, filled, false)));
        }
    }
    let written = Place { waits: 0, ..at };
    if let Err(failure) = writing::write_out(writer, &text[..at.waits]) {
        return Err(Stopped {
            failure,
            at: written,
        });
    }
    let whole = size > 0;
    if whole {
        return Ok(Some(place::at_frame(written, from, from + size, filled, false)));
    }
    refill(reader, written, most, input)
}
