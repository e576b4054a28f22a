// The refusals from 12 on, by the channel that an entry names.
ghost use Rattle.std.specs.Prelude.{◌≡◌, cond, eqb};
ghost use Rattle.channel.specs.State.{is_held};
ghost use Rattle.set_rules.specs.Refusals.{is_caller, is_idle};
ghost use Rattle.set_state.specs.Entry.{refusal_in};
ghost use Rattle.judging.specs.Judging.{usable, ask_refusal, cut_refusal, press_refusal, mobile_on_refusal, mobile_off_refusal, call_refusal, cancel_refusal, refusal_by};

use channel::Channel;
use set_state::{Entry, Refusal};
use telegram::Number;

fn is_caller(number: Option<u32>) -> bool
    ensures { result ≡ is_caller number }
{
    match number {
        Some(v) => v != 0,
        None => false,
    }
}

// Press on while on, or off while off.
fn is_again(on: u8, presser: Option<u8>) -> bool
    ensures { result ≡ eqb on (cond (is_held presser) 1 0) }
{
    if channel::is_held(presser) {
        on == 1
    } else {
        on == 0
    }
}

// Nobody holds the channel, no call is open on it, and no mobile talks or rings.
fn is_idle(c: Channel) -> bool
    ensures { result ≡ is_idle c }
{
    let holder = c.holder;
    let call = c.call;
    let arrival = c.arrival;
    !channel::is_held(holder)
        & !channel::is_open(call)
        & !channel::is_present(arrival)
        & !(0 < c.ring)
}

// The plan has the channel, and desk d is entitled to it. A ring answer is refused for nothing else.
pub fn may_use(d: u8, found: bool, c: Channel) -> bool
    ensures { result ≡ usable d found c }
{
    found & channel::is_in(d, c.entitled)
}

// A telegram of desk d about a channel: the number that it gives, and the desk's own.
fn judge_ask(d: u8, number: Number, own: Number, found: bool, c: Channel) -> Result<(), Refusal>
    ensures { refusal_in result ≡ ask_refusal d number own found c }
{
    if !may_use(d, found, c) {
        return Err(Refusal::NotEntitled);
    }
    if number == own {
        Ok(())
    } else {
        Err(Refusal::WrongNumber)
    }
}

// A cut, and the first tests of a press.
fn judge_cut(d: u8, found: bool, c: Channel) -> Result<(), Refusal>
    ensures { refusal_in result ≡ cut_refusal d found c }
{
    if !may_use(d, found, c) {
        return Err(Refusal::NotEntitled);
    }
    let holder = c.holder;
    if channel::held_by(d, holder) {
        Ok(())
    } else {
        Err(Refusal::NotHolder)
    }
}

fn judge_press(d: u8, on: u8, found: bool, c: Channel) -> Result<(), Refusal>
    ensures { refusal_in result ≡ press_refusal d on found c }
{
    judge_cut(d, found, c)?;
    let presser = c.presser;
    if is_again(on, presser) {
        Err(Refusal::Again)
    } else {
        Ok(())
    }
}

fn judge_mobile_on(number: Option<u32>, found: bool, c: Channel) -> Result<(), Refusal>
    ensures { refusal_in result ≡ mobile_on_refusal number found c }
{
    if !found {
        return Err(Refusal::NotEntitled);
    }
    if !is_caller(number) {
        return Err(Refusal::WrongNumber);
    }
    let arrival = c.arrival;
    if channel::is_present(arrival) | (0 < c.ring) {
        Err(Refusal::Again)
    } else {
        Ok(())
    }
}

fn judge_mobile_off(found: bool, c: Channel) -> Result<(), Refusal>
    ensures { refusal_in result ≡ mobile_off_refusal found c }
{
    if !found {
        return Err(Refusal::NotEntitled);
    }
    let arrival = c.arrival;
    if channel::is_present(arrival) {
        Ok(())
    } else {
        Err(Refusal::Again)
    }
}

// A mobile call. `heard` says whether the called desk is running and entitled.
fn judge_call(
    number: Option<u32>,
    called: Option<u32>,
    heard: bool,
    found: bool,
    c: Channel,
) -> Result<(), Refusal>
    ensures { refusal_in result ≡ call_refusal number called heard found c }
{
    if !found {
        return Err(Refusal::NotEntitled);
    }
    if !(is_caller(number) & is_caller(called)) {
        return Err(Refusal::WrongNumber);
    }
    if heard & is_idle(c) {
        return Ok(());
    }
    Err(Refusal::CannotRing)
}

fn judge_cancel(found: bool, c: Channel) -> Result<(), Refusal>
    ensures { refusal_in result ≡ cancel_refusal found c }
{
    if !found {
        return Err(Refusal::NotEntitled);
    }
    if 0 < c.ring {
        Ok(())
    } else {
        Err(Refusal::CannotRing)
    }
}

// An entry about a channel, and whether the plan has the channel. The number is what a telegram gives as its desk's own; `heard` is
// asked of a mobile call alone.
pub fn judge(
    x: Entry,
    number: Number,
    own: Number,
    heard: bool,
    found: bool,
    c: Channel,
) -> Result<(), Refusal>
    ensures { refusal_in result ≡ refusal_by x number own heard found c }
{
    match x {
        Entry::Telegram { desk } => judge_ask(desk, number, own, found, c),
        Entry::Press { desk, on, .. } => judge_press(desk, on, found, c),
        Entry::Cut { desk, .. } => judge_cut(desk, found, c),
        Entry::MobileOn { number, .. } => judge_mobile_on(number, found, c),
        Entry::MobileCall { number, called, .. } => judge_call(number, called, heard, found, c),
        Entry::MobileCancel { .. } => judge_cancel(found, c),
        _ => judge_mobile_off(found, c),
    }
}
