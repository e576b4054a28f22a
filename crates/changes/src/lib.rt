// What an entry about one desk's link or one channel changes: the desks or that channel, as they are after it. What is here gets
// the desks and the one channel; the set itself stays with `line_set`.
#![tactic(auto)]

mod change;
mod line;
mod link;
mod lookup;

pub use change::{Change, moved};
pub use line::change_of;
pub use link::{LinkChange, link_change};
