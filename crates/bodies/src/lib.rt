// What records say, before they are written: the size of each, the space that they take, and a telegram that is made once for
// all desks that it goes to.
#![tactic(auto)]

mod body;
mod form;
mod measure;
mod shape;

pub use body::Body;
pub use form::form_of;
pub use measure::{space, space_to};
pub use shape::{Own, Shape, shape_of};
