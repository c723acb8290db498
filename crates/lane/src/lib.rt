// The handover state of one lane: its record, a new one, and one whose connection was lost. What a message makes of it is defined here; `moves` does it.
#![tactic(auto)]

mod names; // names.rt: the numbers by name
mod ids; // ids.rt: the ForecastId

ghost use Rattle.std.specs.Prelude.{◌≡◌};
ghost use Rattle.lane.specs.Names.{U, D};
ghost use Rattle.lane.specs.Record as says;

use grammar::Limits;
pub use ids::Forecast;
pub use names::{Kind, Order, Refusal, Side, State};

/// A lane: our side, one of nine states, the two BoardIds, and the ForecastId that is kept.
#[derive(Clone, Copy, PartialEq, Eq)]
pub struct Lane {
    pub side: u8,
    pub state: u8,
    pub offered: [u8; 36],
    pub running: [u8; 36],
    pub forecast: Forecast,
}

/// What a lane looks at in a message: its kind, its BoardId (any bytes where its kind has none), and the ForecastId that it carries.
#[derive(Clone, Copy)]
pub struct Event {
    pub kind: u8,
    pub id: [u8; 36],
    pub forecast: Option<Forecast>,
}

/// What a message did: a refusal number (0: accepted), the lane after it, and the belt order.
// The refusal is a number, since `moves::ended` answers to every one, and C is told it.
#[derive(Clone, Copy)]
pub struct Moved {
    pub refusal: u8,
    pub lane: Lane,
    pub order: u8,
}

impl Lane {
    /// The limits that a lane's messages keep.
    pub const MESSAGE: usize = Limits::MESSAGE;

    pub const NAME: usize = Limits::NAME;

    pub const ATTRIBUTES: usize = Limits::ATTRIBUTES;

    pub const DEPTH: usize = Limits::DEPTH;

    /// A new lane of the upstream machine.
    pub fn upstream() -> Self
        ensures { result ≡ says.fresh U }
    {
        fresh(Side::UPSTREAM)
    }

    /// A new lane of the downstream machine.
    pub fn downstream() -> Self
        ensures { result ≡ says.fresh D }
    {
        fresh(Side::DOWNSTREAM)
    }

    /// The lane after its connection was lost.
    pub fn lost(self) -> Self
        ensures { result ≡ says.blank self }
    {
        let mut lane = self;
        lane.state = State::NOT_CONNECTED;
        lane.offered = [0u8; 36];
        lane.running = [0u8; 36];
        let forecast = Forecast::none();
        lane.forecast = forecast;
        lane
    }
}

// A lane of a side, with no connection.
fn fresh(side: u8) -> Lane
    ensures { result ≡ says.fresh side }
{
    let forecast = Forecast::none();
    Lane {
        side,
        state: State::NOT_CONNECTED,
        offered: [0u8; 36],
        running: [0u8; 36],
        forecast,
    }
}
