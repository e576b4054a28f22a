// The desks of a plan.
ghost use Rattle.std.specs.Prelude.{◌≡◌, not, ◌*◌, ◌≤◌, length};
ghost use Rattle.set_rules.specs.Plan.{distinct};
ghost use Rattle.plans.specs.Planned.{desk_in, desks_read};

use set_state::{Desk, Link};
use telegram::Number;

// Reads the desk at the front, if its code is not too high and its number is one, other than the none-number.
fn read_desk(s: &[u8]) -> Option<Desk>
    requires { 10 ≤ length s.now }
    ensures { result ≡ desk_in s.now }
{
    let code = frames::word(s);
    let wide = 1023 < code;
    if wide {
        return None;
    }
    let digits = numerals::read_digits(&s[2..10])?;
    let none = digits == 0;
    if none {
        return None;
    }
    let number = Number::new(digits);
    let link = Link::new();
    Some(Desk {
        code: code as u32,
        number,
        link,
    })
}

// Reads n desks, in order, with fillers behind them, if none is bad.
pub fn read_desks(s: &[u8], n: usize) -> Option<[Desk; 4]>
    requires { (n ≤ 4) × (10 * n ≤ length s.now) }
    ensures { result ≡ desks_read n s.now }
{
    let filler = Desk::none();
    let mut desks = [filler; 4];
    for i in 0..n {
        desks[i] = read_desk(&s[10 * i..])?;
    }
    Some(desks)
}

// Whether two of some desks have the same number: each is compared with those behind it, up to the first that is equal.
// (Two loops left by a label, and no `any`: the form that 01 names for it, docs/DECISIONS.md.)
pub fn has_equal_numbers(desks: &[Desk]) -> bool
    ensures { result ≡ not (distinct desks.now) }
{
    let mut equal = false;
    'pairs: for (i, one) in desks.iter().enumerate() {
        let number = one.number.digits;
        let behind = &desks[i + 1..];
        for other in behind {
            if number == other.number.digits {
                equal = true;
                break 'pairs;
            }
        }
    }
    equal
}
