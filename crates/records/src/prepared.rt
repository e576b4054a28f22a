// What is made once of a body, for all desks that it goes to.
ghost use Rattle.std.specs.Prelude.{◌≡◌};
ghost use Rattle.bodies.specs.Bodies.{shape_of, form_of};

use bodies::{Body, Shape};

// A body, what its records have in common, and its telegram under code 0: zeros for a contact. The clauses alone read the body.
#[derive(Drop)]
pub struct Prepared {
    pub body: Body,
    pub shape: Shape,
    pub form: [u8; 46],
    ghost shaped: { shape ≡ shape_of body },
    ghost formed: { form ≡ form_of body },
}

impl Prepared {
    pub fn new(body: Body) -> Prepared
        ensures { result.body ≡ body }
    {
        let shape = bodies::shape_of(body);
        let form = bodies::form_of(body);
        Prepared { body, shape, form }
    }
}
