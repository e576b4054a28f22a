// Frames: a length in two bytes, and what it counts.
ghost use Rattle.std.specs.Prelude.{◌≡◌, cond, length};
ghost use Rattle.frames.specs.Frames.{frame_size};

use super::bytes;

// What is there of a frame that breaks off is one by itself only where no more can come.
fn broken_off(window: &[u8], ended: bool) -> usize
    ensures { result ≡ cond ended (length window.now) 0 }
{
    if ended { window.len() } else { 0 }
}

// How many bytes of a window to hand on as its first frame, or 0 to wait for more.
// (No Option: SizeStays and SizeFull speak of the 0, and callers whose bytes have ended, who never get it, would have to unwrap.)
#[tactic(auto, unfolding(crate::specs::Frames::frame_size))]
pub fn frame_size(window: &[u8], most: usize, ended: bool) -> usize
    ensures { result ≡ frame_size most window.now ended }
{
    if window.len() < 2 {
        return broken_off(window, ended);
    }
    let n = bytes::word(window);
    if most < n {
        return 2;
    }
    if window.len() < n + 2 {
        return broken_off(window, ended);
    }
    n + 2
}
