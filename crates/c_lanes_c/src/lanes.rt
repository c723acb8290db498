// A lane record: its side, its state, the offered and the running BoardId, the ForecastId that is kept with its length.
ghost use Rattle.lane.specs.Names.{U, D};
ghost use Rattle.lane.specs.Record.{fresh, blank};
ghost use Rattle.c_promises.specs.Lanes.{lane_of, Lent};

/// A new lane of the upstream machine.
#[unsafe(no_mangle)]
pub extern "C" fn tryphomel_upstream(
    side: &mut u8,
    state: &mut u8,
    offered: &mut [u8; 36],
    running: &mut [u8; 36],
    length: &mut u8,
    forecast: &mut [u8; 80],
)
    ensures { Lent (fresh U) side.new state.new offered.new running.new length.new forecast.new }
{
    c_lanes::tryphomel_upstream(side, state, offered, running, length, forecast);
}

/// A new lane of the downstream machine.
#[unsafe(no_mangle)]
pub extern "C" fn tryphomel_downstream(
    side: &mut u8,
    state: &mut u8,
    offered: &mut [u8; 36],
    running: &mut [u8; 36],
    length: &mut u8,
    forecast: &mut [u8; 80],
)
    ensures { Lent (fresh D) side.new state.new offered.new running.new length.new forecast.new }
{
    c_lanes::tryphomel_downstream(side, state, offered, running, length, forecast);
}

/// The lane after its connection was lost.
#[unsafe(no_mangle)]
pub extern "C" fn tryphomel_lost(
    side: u8,
    state: &mut u8,
    offered: &mut [u8; 36],
    running: &mut [u8; 36],
    length: &mut u8,
    forecast: &mut [u8; 80],
)
    ensures { Lent (blank (lane_of side state.old offered.old running.old length.old forecast.old)) side state.new offered.new running.new length.new forecast.new }
{
    c_lanes::tryphomel_lost(side, state, offered, running, length, forecast);
}
