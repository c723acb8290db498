// MachineReady: its struct, made of a message and laid into one.
ghost use Rattle.std.specs.Prelude.{◌≡◌};
ghost use Rattle.lane.specs.Names as kinds;
ghost use Rattle.message.specs.Messages.{message_from};
ghost use Rattle.structs.specs.Ready.{ready_in, ready_fields};

use crate::laying::put;
use crate::making::{at, cells_if};
use lane::Kind;
use message::Message;
use message::cells::NUMBERS;
use value::Span;

/// The attributes of a MachineReady, in table order.
#[derive(Clone, Copy)]
pub struct MachineReady {
    pub failed: Option<u64>,
    pub forecast: Option<Span>,
}

/// What a MachineReady says; of a message of another kind all is absent.
pub fn machine_ready(m: Message) -> MachineReady
    ensures { result ≡ ready_in m }
{
    let kind = m.kind;
    let cells = cells_if(kind == Kind::MACHINE_READY, m);
    MachineReady {
        failed: at(cells, 0),
        forecast: at(cells, 1),
    }
}

/// The message that says it.
pub fn of_machine_ready(v: MachineReady) -> Message
    ensures { result ≡ message_from kinds.MachineReady (ready_fields v) }
{
    let failed = v.failed;
    let forecast = v.forecast;
    let cells = put([0u64; NUMBERS], 0, failed);
    let cells = put(cells, 1, forecast);
    Message {
        kind: Kind::MACHINE_READY,
        cells: cells,
        id: [0u8; 36],
    }
}
