// What the code of the line rules sends.
#![tactic(auto)]

mod sends;

pub use sends::{
    MobileSends, PressSends, RingSends, SILENT, alone, end, freed, kind_of, mobile_off_sends,
    mobile_sends, opening, press_sends, ring_off_sends, start, taken, to_desk,
};
