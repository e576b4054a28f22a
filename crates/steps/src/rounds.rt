// Rounds over a feed: what each does, and its line.
ghost use Rattle.std.specs.Prelude.{◌≡◌, ◌≤◌, length};
ghost use Rattle.text.specs.Written.{Puts};
ghost use Rattle.steps.specs.Rounds.{round_of, last_of, round_line};

use set_state::LineSet;

// No entry has more bytes behind its length.
const LONGEST: usize = 12000;

// What a round did.
#[derive(Clone, Copy)]
pub struct Round {
    pub entries: usize,
    pub accepted: usize,
    pub bytes: u64,
}

// Steps a new set through the feed. The set stays in one local and is stepped where it lies: no entry copies it.
fn step_all(feed: &[u8], buffer: &mut [u8]) -> Round
    ensures { result ≡ round_of (length buffer.old) feed.now }
{
    let mut set = LineSet::new();
    let mut entries = 0;
    let mut accepted = 0;
    let mut bytes = 0;
    let mut rest = feed;
    while !rest.is_empty() {
        let size = frames::frame_size(rest, LONGEST, true);
        let (entry, behind) = rest.split_at(size);
        let reply = line_set::step_in(&mut set, entry, buffer);
        rest = behind;
        entries += 1;
        // no feed is long enough to wrap this
        bytes = std::num::wrapping_add_u64(bytes, set_state::bytes_written(reply) as u64);
        let refusal = set_state::refusal_number(reply);
        if refusal == 0 {
            accepted += 1;
        }
        let last = refusal == 1;
        if last {
            break;
        }
    }
    Round {
        entries,
        accepted,
        bytes,
    }
}

// The last of some rounds, which are all the same.
pub fn last_round(feed: &[u8], rounds: u64, buffer: &mut [u8]) -> Round
    ensures { result ≡ last_of rounds (length buffer.old) feed.now }
{
    let mut last = Round {
        entries: 0,
        accepted: 0,
        bytes: 0,
    };
    for _ in 0..rounds {
        last = step_all(feed, buffer);
    }
    last
}

// Its line: the three numbers.
pub fn put_round(round: Round, text: &mut [u8]) -> usize
    requires { 64 ≤ length text.old }
    ensures { Puts text.old 0 (round_line round) text.new result }
{
    let first = text::put_item(round.entries as u64, b' ', text, 0);
    let second = text::put_item(round.accepted as u64, b' ', text, first);
    text::put_item(round.bytes, b'\n', text, second)
}
