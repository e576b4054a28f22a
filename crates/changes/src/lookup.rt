// Desks by their place in the plan.
ghost use Rattle.std.specs.Prelude.{◌≡◌, ◌&&◌, cond, ◌≤◌, take};
ghost use Rattle.set_state.specs.State.{is_running, running_from, linked_at};

use set_state::{Desk, Link};

// A desk's place in a set of desks, if it listens there.
fn place_if(listens: bool, desk: Desk, place: u8) -> u8
    ensures value { result ≡ cond (listens && is_running desk) place 0 }
    ensures upper_bound { result ≤ place }
{
    if !listens {
        return 0;
    }
    if desk.link.phase == 3 { place } else { 0 }
}

// Those of the first n desks that are running and entitled (01: E).
pub fn listeners(desks: [Desk; 4], n: u8, entitled: u8) -> u8
    ensures { result ≡ running_from 0 entitled (take n desks) }
{
    let a = place_if((0 < n) & (entitled % 2 == 1), desks[0], 1);
    let b = place_if((1 < n) & (entitled / 2 % 2 == 1), desks[1], 2);
    let c = place_if((2 < n) & (entitled / 2 / 2 % 2 == 1), desks[2], 4);
    let d = place_if((3 < n) & (entitled / 2 / 2 / 2 % 2 == 1), desks[3], 8);
    a + b + c + d
}

// The desks with desk d's link changed.
pub fn linked(desks: [Desk; 4], d: u8, link: Link) -> [Desk; 4]
    ensures { result ≡ linked_at d (λ l. link) desks }
{
    let i = d as usize;
    if i < 4 {
        let mut after = desks;
        after[i].link = link;
        return after;
    }
    desks
}
