// The answer to an entry, put into the text, and whether it is the last one.
ghost use Rattle.std.specs.Prelude.{◌≡◌, ◌+◌, ◌≤◌, eqb, length, take};
ghost use Rattle.text.specs.Written.{Puts};
ghost use Rattle.answer_lines.specs.Lines.{lines_of};
ghost use Rattle.set_state.specs.Entry.{refusal_in, count_in};

use set_state::Refusal;
use streams::Place;

// Puts the answer to the entry at a place behind the text that waits, and says how much waits then.
pub fn show(at: Place, reply: Result<usize, Refusal>, records: &[u8], text: &mut [u8]) -> usize
    requires { (length records.now ≤ 32768) × (at.waits + 73776 ≤ length text.old) }
    ensures { (result ≤ length text.new) × Puts text.old at.waits (lines_of at.number (refusal_in reply) (count_in reply) (take (count_in reply) records.now)) text.new result }
{
    answer_lines::put_answer(
        at.number,
        set_state::refusal_number(reply),
        set_state::bytes_written(reply),
        records,
        text,
        at.waits,
    )
}

// After an entry that is refused with 1 the program stops.
pub fn is_last(reply: Result<usize, Refusal>) -> bool
    ensures { result ≡ eqb (refusal_in reply) 1 }
{
    set_state::refusal_number(reply) == 1
}
