// ServiceDescription: its struct, made of a message and laid into one.
ghost use Rattle.std.specs.Prelude.{◌≡◌};
ghost use Rattle.lane.specs.Names as kinds;
ghost use Rattle.message.specs.Messages.{message_from};
ghost use Rattle.structs.specs.Services.{service_in, service_fields};

use crate::laying::put;
use crate::making::{at, cells_if};
use lane::Kind;
use message::Message;
use message::cells::NUMBERS;
use message::values::Features;
use value::Span;

/// The attributes of a ServiceDescription, in table order.
#[derive(Clone, Copy)]
pub struct ServiceDescription {
    pub machine: Option<Span>,
    pub lane: Option<u64>,
    pub version: Option<Span>,
    pub features: Option<Features>,
}

/// What a ServiceDescription says; of a message of another kind all is absent.
pub fn service_description(m: Message) -> ServiceDescription
    ensures { result ≡ service_in m }
{
    let kind = m.kind;
    let cells = cells_if(kind == Kind::SERVICE_DESCRIPTION, m);
    ServiceDescription {
        machine: at(cells, 0),
        lane: at(cells, 1),
        version: at(cells, 2),
        features: at(cells, 3),
    }
}

/// The message that says it.
pub fn of_service_description(v: ServiceDescription) -> Message
    ensures { result ≡ message_from kinds.ServiceDescription (service_fields v) }
{
    let machine = v.machine;
    let lane = v.lane;
    let version = v.version;
    let features = v.features;
    let cells = put([0u64; NUMBERS], 0, machine);
    let cells = put(cells, 1, lane);
    let cells = put(cells, 2, version);
    let cells = put(cells, 3, features);
    Message {
        kind: Kind::SERVICE_DESCRIPTION,
        cells: cells,
        id: [0u8; 36],
    }
}
