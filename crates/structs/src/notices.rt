// Notification: its struct, made of a message and laid into one.
ghost use Rattle.std.specs.Prelude.{◌≡◌};
ghost use Rattle.lane.specs.Names as kinds;
ghost use Rattle.message.specs.Messages.{message_from};
ghost use Rattle.structs.specs.Notices.{notice_in, notice_fields};

use crate::laying::put;
use crate::making::{at, cells_if};
use lane::Kind;
use message::Message;
use message::cells::NUMBERS;
use value::Span;

/// The attributes of a Notification, in table order.
#[derive(Clone, Copy)]
pub struct Notification {
    pub code: Option<u64>,
    pub severity: Option<u64>,
    pub description: Option<Span>,
}

// Outside it is called `notification`; here that would differ from the struct's name in case only.
/// What a Notification says; of a message of another kind all is absent.
pub fn notification_in(m: Message) -> Notification
    ensures { result ≡ notice_in m }
{
    let kind = m.kind;
    let cells = cells_if(kind == Kind::NOTIFICATION, m);
    Notification {
        code: at(cells, 0),
        severity: at(cells, 1),
        description: at(cells, 2),
    }
}

/// The message that says it.
pub fn of_notification(v: Notification) -> Message
    ensures { result ≡ message_from kinds.Notification (notice_fields v) }
{
    let code = v.code;
    let severity = v.severity;
    let description = v.description;
    let cells = put([0u64; NUMBERS], 0, code);
    let cells = put(cells, 1, severity);
    let cells = put(cells, 2, description);
    Message {
        kind: Kind::NOTIFICATION,
        cells: cells,
        id: [0u8; 36],
    }
}
