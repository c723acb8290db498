// What the Route of a BoardAvailable stands for.
#![tactic(auto)]

ghost use Rattle.std.specs.Prelude.{◌≡◌};
ghost use Rattle.routes.specs.Classes.{class_of};
ghost use Rattle.routes.specs.Numbers.{number_of};

/// The classes of a Route. specs/Classes.antt has the same numbers.
#[derive(Clone, Copy, PartialEq, Eq)]
pub enum RouteClass {
    Undefined = 0,
    Route = 1,
    Return = 2,
    ManualRemoval = 3,
    Reserved = 4,
    Own = 5,
}

impl RouteClass {
    /// The number that C is told.
    pub fn number(self) -> u8
        ensures { result ≡ number_of self }
    {
        self as u8
    }
}

/// The class of a Route. Every number has one.
pub fn route_class(route: u64) -> RouteClass
    ensures { number_of result ≡ class_of route }
{
    match route {
        0 => RouteClass::Undefined,
        1..=99 => RouteClass::Route,
        900 => RouteClass::Return,
        999 => RouteClass::ManualRemoval,
        100..=998 => RouteClass::Reserved,
        _ => RouteClass::Own,
    }
}
