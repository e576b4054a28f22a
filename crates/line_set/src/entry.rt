// One entry.
ghost use Rattle.std.specs.Prelude.{List, ℕ, ◌≡◌, ◌≤◌, length, Ok};
ghost use Rattle.set_rules.specs.Feeds.{Gives, GivesIn, emit, outcome_of, step_of};
ghost use Rattle.set_rules.specs.SetRules.{on_link};
ghost use Rattle.set_state.specs.declared.state.Entry.TheVariants.{Tick, Plan, Handover};

use super::{all, places};
use channel::{Event, Falling};
use set_state::{Answer, Entry, LineSet, LinkRequest, Refusal};
use telegram_requests::Asked;

// A plan, taken where there is none yet.
fn plan(set: &mut LineSet, entry: &[u8], buffer: &mut [u8]) -> Result<usize, Refusal>
    requires { 4 ≤ length entry.now }
    ensures { GivesIn (outcome_of set.old entry.now (Ok Plan) (length buffer.old)) result set.new buffer.old buffer.new }
{
    if set.planned {
        return Err(Refusal::AlreadyPlanned);
    }
    let planned = planning::plan(&entry[4..], buffer);
    let count = planned.reply?;
    *set = planned.set;
    Ok(count)
}

// A handover ends all talk and all calls, and leaves a set without a plan.
fn handover(set: &mut LineSet, buffer: &mut [u8]) -> Result<usize, Refusal>
    ensures { (e : List ℕ) → GivesIn (outcome_of set.old e (Ok Handover) (length buffer.old)) result set.new buffer.old buffer.new }
{
    if !set.planned {
        return Err(Refusal::NoPlan);
    }
    let need = all::space_all(*set);
    if buffer.len() < need {
        return Err(Refusal::NoRoom);
    }
    let written = all::put_all(*set, buffer);
    let new = LineSet::new();
    *set = new;
    Ok(written)
}

// Only a timer that runs out sends anything. The space of all of it is summed before any is written. Most channels are at rest, and
// those past the last that is not are not looked at again. A timer that falls is one byte of the set. The loops go by place: the first
// gives one, and the second writes the set there.
fn tick(set: &mut LineSet, buffer: &mut [u8]) -> Result<usize, Refusal>
    ensures { (e : List ℕ) → GivesIn (outcome_of set.old e (Ok Tick) (length buffer.old)) result set.new buffer.old buffer.new }
{
    if !set.planned {
        return Err(Refusal::NoPlan);
    }
    let desks = set.desks;
    let n = set.size.desks;
    let count = places::count_of(set.size.channels);
    let mut need = 0;
    let mut end = 0;
    for k in 0..count {
        let c = set.channels[k];
        if timers::may_fall(c) {
            if timers::is_due(c) {
                need += all::space_in(desks, n, Event::Tick, c);
            }
            end = k + 1;
        }
    }
    if buffer.len() < need {
        return Err(Refusal::NoRoom);
    }
    let mut written = 0;
    for i in 0..end {
        let c = set.channels[i];
        let falling = timers::falls(c);
        match falling {
            Falling::Still => {}
            Falling::Ring(left) => set.channels[i].ring = left,
            Falling::Quiet(left) => set.channels[i].quiet = left,
            Falling::Release(left) => set.channels[i].release = left,
            Falling::Due => {
                written = all::put_in(buffer, written, desks, n, Event::Tick, c);
                let next = timers::ticked(c);
                set.channels[i] = next;
            }
        }
    }
    Ok(written)
}

// What desk d says of its link.
fn link(set: &mut LineSet, d: u8, request: LinkRequest, buffer: &mut [u8]) -> Result<usize, Refusal>
    ensures { GivesIn (emit set.old (on_link set.old d request) (length buffer.old)) result set.new buffer.old buffer.new }
{
    let change = changes::link_change(set.desks, d, request, buffer)?;
    // an array is stored from a variable only
    let desks = change.desks;
    set.desks = desks;
    Ok(change.count)
}

// Any other entry: it asks something about a desk's link or about a channel, which is sought by its code.
fn ask(set: &mut LineSet, x: Entry, entry: &[u8], buffer: &mut [u8]) -> Result<usize, Refusal>
    requires no_plan { x ≡ Plan → ⊥ }
    requires no_handover { x ≡ Handover → ⊥ }
    requires no_tick { x ≡ Tick → ⊥ }
    ensures { GivesIn (outcome_of set.old entry.now (Ok x) (length buffer.old)) result set.new buffer.old buffer.new }
{
    let desks = set.desks;
    let n = set.size.desks;
    let asked = requests::asked_of(Ok(x), set.planned, entry, desks, n)?;
    match asked {
        Asked::OfLink(request) => link(set, x.desk(), request, buffer),
        Asked::OfLine(request) => {
            let code = telegram_requests::code_of(request);
            let sought = places::seek(set, code);
            let c = sought.channel;
            let change = changes::change_of(desks, n, x, request, sought.found, c, buffer)?;
            let channel = change.channel;
            set.channels[sought.place] = channel;
            Ok(change.count)
        }
    }
}

// An entry of any bytes, before any set, with a buffer of any length, ends with the answer that the rules give. The set is
// changed where it lies.
pub fn step_in(set: &mut LineSet, entry: &[u8], buffer: &mut [u8]) -> Result<usize, Refusal>
    ensures { GivesIn (step_of set.old entry.now (length buffer.old)) result set.new buffer.old buffer.new }
{
    let x = entries::read_entry(entry)?;
    match x {
        Entry::Plan => plan(set, entry, buffer),
        Entry::Handover => handover(set, buffer),
        Entry::Tick => tick(set, buffer),
        _ => ask(set, x, entry, buffer),
    }
}

// As `step_in`, with the set given and given back.
pub fn step(mut set: LineSet, entry: &[u8], buffer: &mut [u8]) -> Answer
    ensures { Gives (step_of set entry.now (length buffer.old)) result buffer.old buffer.new }
{
    let reply = step_in(&mut set, entry, buffer);
    Answer { set, reply }
}
