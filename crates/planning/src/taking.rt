// A plan makes the set anew, and each desk is asked for the time.
ghost use Rattle.planning.specs.Plans.{PlanGives};

use bodies::Body;
use set_state::{Answer, LineSet, Refusal};

// An entry that is a plan, by the bytes of the plan, where there is none yet. The set given is the one that the bytes make, and a
// new one where they break a rule. Where the entry is refused, the caller keeps its own.
pub fn plan(bytes: &[u8], buffer: &mut [u8]) -> Answer
    ensures { PlanGives bytes.now result buffer.old buffer.new }
{
    let Some(set) = plans::read_plan(bytes) else {
        let new = LineSet::new();
        return Answer {
            set: new,
            reply: Err(Refusal::BadPlan),
        };
    };
    let desks = set.desks;
    let recipients = channel::first_desks(set.size.desks);
    let need = bodies::space_to(recipients, Body::TimeRequest);
    if buffer.len() < need {
        return Answer {
            set,
            reply: Err(Refusal::NoRoom),
        };
    }
    let count = records::put_to(buffer, 0, desks, recipients, Body::TimeRequest);
    Answer {
        set,
        reply: Ok(count),
    }
}
