// StopTransport and TransportFinished: their struct, made of a message and laid into one.
ghost use Rattle.std.specs.Prelude.{◌≡◌};
ghost use Rattle.lane.specs.Names.{StopTransport, TransportFinished};
ghost use Rattle.message.specs.Messages.{message_from};
ghost use Rattle.structs.specs.Transfers.{transfer_in, transfer_fields};

use crate::laying::{bytes_in, put, put_id};
use crate::making::{at, cells_if, id_at};
use lane::Kind;
use message::Message;
use message::cells::NUMBERS;

/// The attributes of both, in table order.
#[derive(Clone, Copy)]
pub struct Transfer {
    pub state: Option<u64>,
    pub id: Option<[u8; 36]>,
}

// Outside it is called `transfer`; here that would differ from the struct's name in case only.
/// What a StopTransport or a TransportFinished says; of a message of another kind all is absent.
pub fn transfer_in(m: Message) -> Transfer
    ensures { result ≡ transfer_in m }
{
    let kind = m.kind;
    let id = m.id;
    let stopped = kind == Kind::STOP_TRANSPORT;
    let finished = kind == Kind::TRANSPORT_FINISHED;
    let cells = cells_if(stopped | finished, m);
    Transfer {
        state: at(cells, 0),
        id: id_at(cells, 1, id),
    }
}

// The message of that kind that says it.
fn of_transfer(kind: u8, v: Transfer) -> Message
    ensures { result ≡ message_from kind (transfer_fields v) }
{
    let state = v.state;
    let id = v.id;
    let cells = put([0u64; NUMBERS], 0, state);
    let cells = put_id(cells, 1, id);
    Message {
        kind: kind,
        cells: cells,
        id: bytes_in(id),
    }
}

/// The StopTransport that says it.
pub fn of_stop_transport(v: Transfer) -> Message
    ensures { result ≡ message_from StopTransport (transfer_fields v) }
{
    of_transfer(Kind::STOP_TRANSPORT, v)
}

/// The TransportFinished that says it.
pub fn of_transport_finished(v: Transfer) -> Message
    ensures { result ≡ message_from TransportFinished (transfer_fields v) }
{
    of_transfer(Kind::TRANSPORT_FINISHED, v)
}
