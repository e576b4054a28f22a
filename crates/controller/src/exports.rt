// The functions that a caller in another language links. Each passes what lies behind its references on by value, so that
// none needs a proof by hand.
ghost use Rattle.std.specs.Prelude.{◌≡◌};
ghost use Rattle.set_state.specs.State.{new_set};
ghost use Rattle.plain_set.specs.Plain.{plain_of, flag_of};
ghost use Rattle.controller.specs.Memory.{set_size, set_align, layout_now, is_current, Keeps, KeepsIn};

use plain_set::PlainSet;
use set_state::LineSet;

// The answer to an entry, with the set as numbers.
#[derive(Clone, Copy)]
pub struct Kept {
    pub set: PlainSet,
    pub count: usize,
    pub refusal: u8,
}

// How the memory of a set begins: the last byte is the number of the layout. A release that lays a set out otherwise has
// another.
const LAYOUT: [u8; 4] = [b'I', b'M', b'J', 2];

// What C's rules make of `PlainSet`.
const SIZE: usize = size_of::<PlainSet>();

fn new_plain() -> PlainSet
    ensures { result ≡ plain_of layout_now new_set }
{
    plain_set::plain_of(LAYOUT, LineSet::new())
}

// A refused entry leaves every number as it is, even of a set that nobody made, and no entry changes how the memory begins.
fn step_plain(plain: PlainSet, entry: &[u8], buffer: &mut [u8]) -> Kept
    ensures { Keeps plain entry.now result buffer.old buffer.new }
{
    let mut set = plain_set::set_in(plain);
    let reply = line_set::step_in(&mut set, entry, buffer);
    match reply {
        Err(refusal) => Kept {
            set: plain,
            count: 0,
            refusal: refusal.number(),
        },
        Ok(count) => Kept {
            set: plain_set::plain_of(plain.layout, set),
            count,
            refusal: 0,
        },
    }
}

// How many bytes a set takes, for a caller that reserves them.
#[unsafe(no_mangle)]
pub extern "C" fn imjauska_set_size() -> usize
    ensures { result ≡ set_size }
{
    SIZE
}

// What the address of a set is a multiple of.
#[unsafe(no_mangle)]
pub extern "C" fn imjauska_set_align() -> usize
    ensures { result ≡ set_align }
{
    align_of::<PlainSet>()
}

// Whether bytes that were saved are as long as a set and begin as one of this layout: 1 if so. It says nothing of who wrote
// them.
#[unsafe(no_mangle)]
pub extern "C" fn imjauska_is_current(saved: &[u8]) -> u8
    ensures { result ≡ flag_of (is_current saved.now) }
{
    let whole = saved.len() == SIZE;
    let current = whole && saved.starts_with(&LAYOUT);
    if current { 1 } else { 0 }
}

// Makes a new set, without a plan, in the caller's memory.
#[unsafe(no_mangle)]
pub extern "C" fn imjauska_new(set: &mut PlainSet)
    ensures { set.new ≡ plain_of layout_now new_set }
{
    *set = new_plain();
}

// One entry: the refusal number comes back, and how many bytes were written goes through `count`, C's way to a second
// result.
#[unsafe(no_mangle)]
pub extern "C" fn imjauska_step(
    set: &mut PlainSet,
    entry: &[u8],
    buffer: &mut [u8],
    count: &mut usize,
) -> u8
    ensures { KeepsIn set.old entry.now result count.new set.new buffer.old buffer.new }
{
    let a = step_plain(*set, entry, buffer);
    *set = a.set;
    *count = a.count;
    a.refusal
}
