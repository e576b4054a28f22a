// The space that records take, which is known before anything is written.
ghost use Rattle.std.specs.Prelude.{◌≡◌, List, [], ◌∷◌, ℕ, ◌*◌, ◌≤◌};
ghost use Rattle.std.specs.Int.Count.{ones_in};
ghost use Rattle.set_rules.specs.Records.{delivered, space_of};
ghost use Rattle.bodies.specs.Bodies.{delivery, size_in};

use super::body::Body;
use super::shape;
use super::shape::Shape;
use channel::Send;
use set_state::Desk;

// How long a record is.
fn size_in(shape: Shape) -> usize
    ensures { result ≡ size_in shape }
{
    match shape {
        Shape::Contact { .. } => 8,
        Shape::Telegram { size, .. } => size,
    }
}

// Records of one size to the desks of a set: the number of ones in the set times the size.
fn space_of(recipients: u8, size: usize) -> usize
    requires { size ≤ 51 }
    ensures { (result ≡ ones_in 8 recipients * size) × (result ≤ 408) }
{
    recipients.count_ones() as usize * size
}

// The space of one body to the desks of a set.
pub fn space_to(recipients: u8, body: Body) -> usize
    ensures { ((ds : List Desk) → result ≡ space_of (delivery ds recipients body ∷ [])) × (result ≤ 408) }
{
    space_of(recipients, size_in(shape::shape_of(body)))
}

// The space of what a channel sends. It is the same whichever channel and desks these are.
pub fn space(sends: [Send; 7]) -> usize
    ensures { ((ds : List Desk) (ch : ℕ) → result ≡ space_of (delivered ds ch sends)) × (result ≤ 2856) }
{
    let mut sum = 0;
    for s in sends {
        sum += space_of(s.recipients, shape::notice_size(s.notice));
    }
    sum
}
