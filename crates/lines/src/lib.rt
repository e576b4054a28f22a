// What happens on a channel by its event, as code: the channel after it, and what it sends. Capture, cut and release are in
// `holding`, press and mobile in `talk`, a mobile that rings in `rings`; the tick and what ends all are here.
#![tactic(auto)]

mod rules;
mod ticking;

pub use rules::happens;
