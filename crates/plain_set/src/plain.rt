// A set as numbers, for a caller's memory: an exported function may not see an enum. Any bytes are such a set. A flag is 1
// for true; `spare` and `tail` are 0 and fill gaps, so that a set has no byte of which nothing is said. The gaps of a channel, an
// arrival and the set are for what later releases keep of them, so that the size of a set stays.

// A desk, if `held` is 1.
#[repr(C)]
#[derive(Clone, Copy)]
pub struct PlainParty {
    pub held: u8,
    pub desk: u8,
}

// The open call, if `opened` is 1.
#[repr(C)]
#[derive(Clone, Copy)]
pub struct PlainCall {
    pub source: u32,
    pub base: u16,
    pub opened: u8,
    pub kind: u8,
    pub direction: u8,
    pub recipients: u8,
    pub spare: u16,
}

// The mobile that talks, if `present` is 1.
#[repr(C)]
#[derive(Clone, Copy)]
pub struct PlainArrival {
    pub number: u32,
    pub base: u8,
    pub spare: u8,
    pub present: u8,
    pub kind: u8,
    pub recipients: u8,
    pub tail: [u8; 3],
}

#[repr(C)]
#[derive(Clone, Copy)]
pub struct PlainChannel {
    pub call: PlainCall,
    pub arrival: PlainArrival,
    pub holder: PlainParty,
    pub presser: PlainParty,
    pub code: u8,
    pub entitled: u8,
    pub quiet: u8,
    pub release: u8,
    pub ring: u8,
    pub spare: [u8; 3],
}

#[repr(C)]
#[derive(Clone, Copy)]
pub struct PlainDesk {
    pub code: u32,
    pub number: u32,
    pub phase: u32,
}

// How many desks and channels the plan has.
#[repr(C)]
#[derive(Clone, Copy)]
pub struct PlainSize {
    pub desks: u8,
    pub channels: u8,
}

// `layout` is "IMJ" and the number of the layout: it comes first, so that memory that was saved tells what it is.
#[repr(C)]
#[derive(Clone, Copy)]
pub struct PlainSet {
    pub layout: [u8; 4],
    pub channels: [PlainChannel; 32],
    pub desks: [PlainDesk; 4],
    pub size: PlainSize,
    pub planned: u8,
    pub spare: u8,
}
