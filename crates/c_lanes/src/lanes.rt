// A lane record: its side, its state, the offered and the running BoardId, the ForecastId that is kept with its length.
ghost use Rattle.lane.specs.Names.{U, D};
ghost use Rattle.lane.specs.Record.{fresh, blank};
ghost use Rattle.c_promises.specs.Lanes.{lane_of, Lent};

use lane::{Forecast, Lane};

/// A new lane of the upstream machine.
pub fn tryphomel_upstream(
    side: &mut u8,
    state: &mut u8,
    offered: &mut [u8; 36],
    running: &mut [u8; 36],
    length: &mut u8,
    forecast: &mut [u8; 80],
)
    ensures { Lent (fresh U) side.new state.new offered.new running.new length.new forecast.new }
{
    let up = Lane::upstream();
    *side = up.side;
    lend(up, state, offered, running, length, forecast);
}

/// A new lane of the downstream machine.
pub fn tryphomel_downstream(
    side: &mut u8,
    state: &mut u8,
    offered: &mut [u8; 36],
    running: &mut [u8; 36],
    length: &mut u8,
    forecast: &mut [u8; 80],
)
    ensures { Lent (fresh D) side.new state.new offered.new running.new length.new forecast.new }
{
    let down = Lane::downstream();
    *side = down.side;
    lend(down, state, offered, running, length, forecast);
}

/// The lane after its connection was lost.
pub fn tryphomel_lost(
    side: u8,
    state: &mut u8,
    offered: &mut [u8; 36],
    running: &mut [u8; 36],
    length: &mut u8,
    forecast: &mut [u8; 80],
)
    ensures { Lent (blank (lane_of side state.old offered.old running.old length.old forecast.old)) side state.new offered.new running.new length.new forecast.new }
{
    let lane = Lane {
        side,
        state: *state,
        offered: *offered,
        running: *running,
        forecast: Forecast {
            length: *length,
            bytes: *forecast,
        },
    };
    let next = lane.lost();
    lend(next, state, offered, running, length, forecast);
}

// A lane put into the parts that are lent, beside its side.
fn lend(
    lane: Lane,
    state: &mut u8,
    offered: &mut [u8; 36],
    running: &mut [u8; 36],
    length: &mut u8,
    forecast: &mut [u8; 80],
)
    ensures { Lent lane lane.side state.new offered.new running.new length.new forecast.new }
{
    // Each array by a variable: the borrow checker covers no field that is stored straight.
    let o = lane.offered;
    let r = lane.running;
    let f = lane.forecast.bytes;
    *state = lane.state;
    *offered = o;
    *running = r;
    *length = lane.forecast.length;
    *forecast = f;
}
