// The class of a Route for C.
ghost use Rattle.std.specs.Prelude.{◌≡◌};
ghost use Rattle.routes.specs.Classes.{class_of};

/// The class of a Route. Every number has one.
#[unsafe(no_mangle)]
pub extern "C" fn tryphomel_route_class(route: u64) -> u8
    ensures { result ≡ class_of route }
{
    c_lanes::tryphomel_route_class(route)
}
