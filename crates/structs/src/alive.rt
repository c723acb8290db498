// CheckAlive: its struct, made of a message and laid into one.
ghost use Rattle.std.specs.Prelude.{◌≡◌};
ghost use Rattle.lane.specs.Names as kinds;
ghost use Rattle.message.specs.Messages.{message_from};
ghost use Rattle.structs.specs.Alive.{alive_in, alive_fields};

use crate::laying::put;
use crate::making::{at, cells_if};
use lane::Kind;
use message::Message;
use message::cells::NUMBERS;
use value::Span;

/// The attributes of a CheckAlive, in table order.
#[derive(Clone, Copy)]
pub struct CheckAlive {
    pub ping: Option<u64>,
    pub id: Option<Span>,
}

/// What a CheckAlive says; of a message of another kind all is absent.
pub fn check_alive(m: Message) -> CheckAlive
    ensures { result ≡ alive_in m }
{
    let kind = m.kind;
    let cells = cells_if(kind == Kind::CHECK_ALIVE, m);
    CheckAlive {
        ping: at(cells, 0),
        id: at(cells, 1),
    }
}

/// The message that says it.
pub fn of_check_alive(v: CheckAlive) -> Message
    ensures { result ≡ message_from kinds.CheckAlive (alive_fields v) }
{
    let ping = v.ping;
    let id = v.id;
    let cells = put([0u64; NUMBERS], 0, ping);
    let cells = put(cells, 1, id);
    Message {
        kind: Kind::CHECK_ALIVE,
        cells: cells,
        id: [0u8; 36],
    }
}
