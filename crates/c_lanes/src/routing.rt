// The class of a Route for C.
ghost use Rattle.std.specs.Prelude.{◌≡◌};
ghost use Rattle.routes.specs.Classes.{class_of};

use routes::route_class;

/// The class of a Route. Every number has one.
pub fn tryphomel_route_class(route: u64) -> u8
    ensures { result ≡ class_of route }
{
    route_class(route).number()
}
