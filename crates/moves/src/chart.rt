// The lane's chart: one match over the message kind and one over the state number decide the step.
ghost use Rattle.std.specs.Prelude.{◌≡◌};
ghost use Rattle.lane.specs.Chart as says;
ghost use Rattle.lane.specs.Chart.{may_name, by_rows, chart};
ghost use Rattle.moves.specs.Entry.{IsEntry, sent_from, received_from};

use lane::{Kind, Side, State};

// What the table has for a state and a kind: the side that sends it, the next state, and whether it may be sent or only received.
#[derive(Clone, Copy)]
struct Entry {
    sender: u8,
    next: u8,
    may_be_sent: bool,
}

/// What a message does in a state: the next one, or no transition. `same`: it carries the id that it is held against.
pub fn next(state: u8, kind: u8, sender: u8, received: bool, same: bool) -> Option<u8>
    ensures { result ≡ says.next state kind sender received same }
{
    match kind {
        Kind::UNKNOWN if received => Some(state),
        Kind::UNKNOWN => None,
        Kind::NOTIFICATION | Kind::CHECK_ALIVE => Some(state),
        _ if may_name(kind, received, same) => by_chart(state, kind, sender, received),
        _ => None,
    }
}

// Whether a message may pass with the id that it names.
fn may_name(kind: u8, received: bool, same: bool) -> bool
    ensures { result ≡ may_name kind received same }
{
    match kind {
        Kind::START_TRANSPORT => received || same,
        Kind::STOP_TRANSPORT | Kind::TRANSPORT_FINISHED => same,
        _ => true,
    }
}

// What the chart says of a message that may pass with its id.
fn by_chart(state: u8, kind: u8, sender: u8, received: bool) -> Option<u8>
    ensures { result ≡ by_rows chart state kind sender received }
{
    let entry = table(state, kind)?;
    if (entry.may_be_sent || received) && sender == entry.sender {
        return Some(entry.next);
    }
    None
}

fn from(sender: u8, next: u8) -> Option<Entry>
    ensures { result ≡ sent_from sender next }
{
    Some(Entry {
        sender,
        next,
        may_be_sent: true,
    })
}

fn received_from(sender: u8, next: u8) -> Option<Entry>
    ensures { result ≡ received_from sender next }
{
    Some(Entry {
        sender,
        next,
        may_be_sent: false,
    })
}

// What document 01's table has for a state and a kind.
fn table(state: u8, kind: u8) -> Option<Entry>
    ensures { IsEntry state kind result }
{
    match state {
        State::NOT_CONNECTED => match kind {
            Kind::SERVICE_DESCRIPTION => from(Side::DOWNSTREAM, State::DESCRIBED_DOWN),
            _ => None,
        },
        State::DESCRIBED_DOWN => match kind {
            Kind::SERVICE_DESCRIPTION => from(Side::UPSTREAM, State::IDLE),
            _ => None,
        },
        State::IDLE => match kind {
            Kind::BOARD_AVAILABLE => from(Side::UPSTREAM, State::OFFERED),
            Kind::MACHINE_READY => from(Side::DOWNSTREAM, State::READY),
            Kind::BOARD_FORECAST => from(Side::UPSTREAM, State::IDLE),
            _ => None,
        },
        State::OFFERED => match kind {
            Kind::REVOKE_BOARD_AVAILABLE => from(Side::UPSTREAM, State::IDLE),
            Kind::MACHINE_READY => from(Side::DOWNSTREAM, State::BOTH),
            _ => None,
        },
        State::READY => match kind {
            Kind::REVOKE_MACHINE_READY => from(Side::DOWNSTREAM, State::IDLE),
            Kind::BOARD_AVAILABLE => from(Side::UPSTREAM, State::BOTH),
            Kind::START_TRANSPORT => received_from(Side::DOWNSTREAM, State::TRANSPORTING),
            Kind::BOARD_FORECAST => from(Side::UPSTREAM, State::READY),
            _ => None,
        },
        State::BOTH => match kind {
            Kind::REVOKE_BOARD_AVAILABLE => from(Side::UPSTREAM, State::READY),
            Kind::REVOKE_MACHINE_READY => from(Side::DOWNSTREAM, State::OFFERED),
            Kind::START_TRANSPORT => from(Side::DOWNSTREAM, State::TRANSPORTING),
            _ => None,
        },
        State::TRANSPORTING => match kind {
            Kind::STOP_TRANSPORT => from(Side::DOWNSTREAM, State::STOPPED),
            Kind::TRANSPORT_FINISHED => from(Side::UPSTREAM, State::FINISHED),
            Kind::REVOKE_BOARD_AVAILABLE => received_from(Side::UPSTREAM, State::TRANSPORTING),
            Kind::BOARD_FORECAST => received_from(Side::UPSTREAM, State::TRANSPORTING),
            _ => None,
        },
        State::STOPPED => match kind {
            Kind::REVOKE_BOARD_AVAILABLE => received_from(Side::UPSTREAM, State::STOPPED),
            Kind::TRANSPORT_FINISHED => from(Side::UPSTREAM, State::IDLE),
            Kind::BOARD_FORECAST => received_from(Side::UPSTREAM, State::STOPPED),
            _ => None,
        },
        State::FINISHED => match kind {
            Kind::STOP_TRANSPORT => from(Side::DOWNSTREAM, State::IDLE),
            _ => None,
        },
        _ => None,
    }
}
