// Plans: the counts and the size, then the desks, then the channels.
ghost use Rattle.std.specs.Prelude.{◌≡◌};
ghost use Rattle.plans.specs.Planned.{counts_in, plan_of};

use super::{channels, desks};
use set_state::{LineSet, Size};

// How many desks and channels a plan says that it has, if the counts are in range and it is as long as they say.
#[tactic(auto, unfolding(crate::specs::Planned::counts_ok))]
fn read_counts(plan: &[u8]) -> Option<Size>
    ensures { result ≡ counts_in plan.now }
{
    let desks = frames::byte(plan, 0);
    let past = 10 * desks as usize;
    let channels = frames::byte(plan, 1 + past);
    let size = 2 + past + 2 * channels as usize;
    if ((1 <= desks) & (desks <= 4)) & ((1 <= channels) & (channels <= 32)) & (plan.len() == size) {
        Some(Size { desks, channels })
    } else {
        None
    }
}

// Reads a plan: the set that it makes, if it breaks no rule.
pub fn read_plan(plan: &[u8]) -> Option<LineSet>
    ensures { result ≡ plan_of plan.now }
{
    let size = read_counts(plan)?;
    let n = size.desks as usize;
    let desks = desks::read_desks(&plan[1..], n)?;
    if desks::has_equal_numbers(&desks[..n]) {
        return None;
    }
    let at = 2 + 10 * n;
    let channels = channels::read_channels(&plan[at..], size.channels as usize, size.desks)?;
    Some(LineSet {
        channels,
        desks,
        size,
        planned: true,
    })
}
