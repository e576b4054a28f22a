// Where a program stands between its input and its output.
ghost use Rattle.std.specs.Prelude.{◌≡◌};
ghost use Rattle.streams.specs.Places.{start, at_frame, unreadable};

// The frame lies in the input from `from` to `to`, and the input is filled up to `filled`; a read has found its end if it has
// `ended`. It is the frame of that `number`, counted from 1. The first `waits` bytes of the text are still to be written.
#[derive(Clone, Copy)]
pub struct Place {
    pub from: usize,
    pub to: usize,
    pub filled: usize,
    pub ended: bool,
    pub number: u64,
    pub waits: usize,
}

impl Place {
    // Nothing is read yet.
    pub fn new() -> Place
        ensures { result ≡ start }
    {
        Place {
            from: 0,
            to: 0,
            filled: 0,
            ended: false,
            number: 0,
            waits: 0,
        }
    }
}

// At the next frame.
pub fn at_frame(p: Place, from: usize, to: usize, filled: usize, ended: bool) -> Place
    ensures { result ≡ at_frame p from to filled ended }
{
    Place {
        from,
        to,
        filled,
        ended,
        // no input is long enough to wrap this
        number: p.number.wrapping_add(1),
        waits: p.waits,
    }
}

// At no frame, since the input cannot be read.
pub fn unreadable(p: Place, filled: usize) -> Place
    ensures { result ≡ unreadable p filled }
{
    Place {
        from: 0,
        to: 0,
        filled,
        ended: false,
        number: p.number,
        waits: p.waits,
    }
}
