// The lines for an answer: one for the entry, and one for each record.
#![tactic(auto)]

mod lines;

ghost use Rattle.std.specs.Prelude.{◌+◌, ◌≤◌, length, take};
ghost use Rattle.frames.specs.Frames.{frames_in};
ghost use Rattle.text.specs.Written.{Puts};
ghost use Rattle.answer_lines.specs.Lines.{record_lines, lines_of};

// No answer takes more: 48 bytes for the entry, and 9 for each 4 in a buffer of 32,768, since a contact of 8 bytes
// takes up to 18.
pub const ROOM: usize = 73776;

// The lines of some records. No length is too long, since 65,535 is the highest that two bytes say.
fn put_records(records: &[u8], text: &mut [u8], at: usize) -> usize
    requires { at + length (record_lines (frames_in records.now)) ≤ length text.old }
    ensures { Puts text.old at (record_lines (frames_in records.now)) text.new result }
{
    let mut rest = records;
    let mut place = at;
    while !rest.is_empty() {
        let size = frames::frame_size(rest, 65535, true);
        let (record, behind) = rest.split_at(size);
        place = lines::put_record(record, text, place);
        rest = behind;
    }
    place
}

// The lines of an answer, in a text that has just the room for them.
fn put_lines(
    number: u64,
    refusal: u8,
    count: usize,
    buffer: &[u8],
    text: &mut [u8],
    at: usize,
) -> usize
    requires { at + length (lines_of number refusal count (take count buffer.now)) ≤ length text.old }
    ensures { Puts text.old at (lines_of number refusal count (take count buffer.now)) text.new result }
{
    let place = lines::put_entry(number, refusal, count, text, at);
    let written = count.min(buffer.len());
    put_records(&buffer[..written], text, place)
}

// The lines of an answer whose records are the first `count` bytes of a buffer.
pub fn put_answer(
    number: u64,
    refusal: u8,
    count: usize,
    buffer: &[u8],
    text: &mut [u8],
    at: usize,
) -> usize
    requires { (length buffer.now ≤ 32768) × (at + 73776 ≤ length text.old) }
    ensures { (result ≤ length text.new) × Puts text.old at (lines_of number refusal count (take count buffer.now)) text.new result }
{
    put_lines(number, refusal, count, buffer, text, at)
}
