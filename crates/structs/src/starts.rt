// StartTransport: its struct, made of a message and laid into one.
ghost use Rattle.std.specs.Prelude.{◌≡◌};
ghost use Rattle.lane.specs.Names as kinds;
ghost use Rattle.message.specs.Messages.{message_from};
ghost use Rattle.structs.specs.Starts.{start_in, start_fields};

use crate::laying::{bytes_in, put, put_id};
use crate::making::{at, cells_if, id_at};
use lane::Kind;
use message::Message;
use message::cells::NUMBERS;
use message::values::Decimal;

/// The attributes of a StartTransport, in table order.
#[derive(Clone, Copy)]
pub struct StartTransport {
    pub id: Option<[u8; 36]>,
    pub speed: Option<Decimal>,
}

/// What a StartTransport says; of a message of another kind all is absent.
pub fn start_transport(m: Message) -> StartTransport
    ensures { result ≡ start_in m }
{
    let kind = m.kind;
    let id = m.id;
    let cells = cells_if(kind == Kind::START_TRANSPORT, m);
    StartTransport {
        id: id_at(cells, 0, id),
        speed: at(cells, 1),
    }
}

/// The message that says it.
pub fn of_start_transport(v: StartTransport) -> Message
    ensures { result ≡ message_from kinds.StartTransport (start_fields v) }
{
    let id = v.id;
    let speed = v.speed;
    let cells = put_id([0u64; NUMBERS], 0, id);
    let cells = put(cells, 1, speed);
    Message {
        kind: Kind::START_TRANSPORT,
        cells: cells,
        id: bytes_in(id),
    }
}
