// What a message does to a lane: received, sent, or refused so that the connection ends. Nothing here reads or writes bytes of a message.
#![tactic(auto)]

mod chart; // chart.rt: which message makes which transition
mod meeting; // meeting.rt: a message that meets a lane, and what it leaves there

ghost use Rattle.std.specs.Prelude.{◌≡◌};
ghost use Rattle.lane.specs.Record as says;

use chart::next;
use lane::{Event, Lane, Moved, Order, Refusal, Side, State};
use meeting::Meeting;

/// The answer to a refusal that ends the connection: the lane is NotConnected, and a board under way is stopped.
pub fn ended(lane: Lane, refusal: u8) -> Moved
    ensures { result ≡ says.ended lane refusal }
{
    let order = if under_way(lane.state) {
        Order::STOP_NOW
    } else {
        Order::NONE
    };
    Moved {
        refusal,
        lane: lane.lost(),
        order,
    }
}

/// What a received message does.
/// Where the chart has no transition, the connection ends with a protocol error.
pub fn received(lane: Lane, event: Event) -> Moved
    ensures { result ≡ says.received lane event }
{
    let meeting = Meeting { lane, event };
    match next(
        lane.state,
        event.kind,
        other(lane.side),
        true,
        meeting.carries_held(),
    ) {
        Some(n) => meeting.accepted(true, n),
        None => ended(lane, Refusal::PROTOCOL_ERROR),
    }
}

/// What sending a message does.
/// Where the chart has no transition, the message may not be sent, and the lane is kept.
pub fn sent(lane: Lane, event: Event) -> Moved
    ensures { result ≡ says.sent lane event }
{
    let meeting = Meeting { lane, event };
    match next(
        lane.state,
        event.kind,
        lane.side,
        false,
        meeting.carries_held(),
    ) {
        Some(n) => meeting.accepted(false, n),
        None => Moved {
            refusal: Refusal::MAY_NOT_BE_SENT,
            lane,
            order: Order::NONE,
        },
    }
}

// The side that sends what `side` receives; 0 for an unknown one.
fn other(side: u8) -> u8
    ensures { result ≡ says.other side }
{
    match side {
        Side::UPSTREAM => Side::DOWNSTREAM,
        Side::DOWNSTREAM => Side::UPSTREAM,
        _ => 0,
    }
}

// The states in which a board is under way, and the running id in use.
pub(crate) fn under_way(state: u8) -> bool
    ensures { result ≡ says.running_used state }
{
    matches!(state, State::TRANSPORTING..=State::FINISHED)
}
