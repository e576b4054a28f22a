// A set that is lent: it is stepped where it lies.
ghost use Rattle.std.specs.Prelude.{length};
ghost use Rattle.set_rules.specs.Feeds.{GivesIn, step_of};

use line_set::step;
use set_state::{LineSet, Refusal};

// As `step`, and the set that is lent is the one after the entry.
pub fn step_in(set: &mut LineSet, entry: &[u8], buffer: &mut [u8]) -> Result<usize, Refusal>
    ensures { GivesIn (step_of set.old entry.now (length buffer.old)) result set.new buffer.old buffer.new }
{
    let a = step(*set, entry, buffer);
    *set = a.set;
    a.reply
}
