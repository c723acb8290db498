// Sending: whether a message may be sent, what it does to the lane, and its bytes.
ghost use Rattle.std.specs.Prelude.{◌≡◌};
ghost use Rattle.promises.specs.Sending.{kept as keptBy, may_not, Sends};
ghost use Rattle.message.specs.Messages.{message_by};
ghost use Rattle.meant.specs.Writes.{Writes};

use cells::named_id;
use events::sent_event;
use lane::{Lane, Order, Refusal};
use meant::Written;
use message::Message;
use promises::Sent;

// A refusal keeps the lane.
fn kept(lane: Lane, refusal: u8) -> Sent
    ensures { result ≡ keptBy lane refusal }
{
    Sent {
        refusal,
        lane,
        order: Order::NONE,
        written: 0,
    }
}

// The refusal of a message without a transition: 4, 5, 6 decide before 8.
fn may_not(kind: u8, cells: &[u64], id: [u8; 36], texts: &[u8]) -> u8
    ensures { result ≡ may_not (message_by kind cells.now id) texts.now }
{
    let r = writes::refusal_of_cells(kind, cells, &id, texts);
    if r != 0 {
        return r;
    }
    Refusal::MAY_NOT_BE_SENT
}

// The message's bytes, first in the buffer.
fn put(kind: u8, cells: &[u64], id: [u8; 36], texts: &[u8], out: &mut [u8]) -> Written
    ensures { Writes (message_by kind cells.now id) texts.now out.old out.new result }
{
    writes::write_cells(kind, cells, &id, texts, out)
}

/// Sends the message of a kind that these cells and this BoardId are, whose texts are parts of `texts`: it stands first in the buffer, and the lane
/// is moved. Every refusal keeps both.
pub fn send_from(
    lane: Lane,
    kind: u8,
    cells: &[u64],
    id: [u8; 36],
    texts: &[u8],
    out: &mut [u8],
) -> Sent
    ensures { Sends lane (message_by kind cells.now id) texts.now out.old out.new result }
{
    let named = named_id(kind, cells, id);
    let event = sent_event(kind, cells, named, texts);
    let moved = moves::sent(lane, event);
    if moved.refusal != 0 {
        return kept(lane, may_not(kind, cells, id, texts));
    }
    let w = put(kind, cells, id, texts, out);
    if w.refusal != 0 {
        return kept(lane, w.refusal);
    }
    let next = moved.lane;
    Sent {
        refusal: 0,
        lane: next,
        order: moved.order,
        written: w.count,
    }
}

/// Sends a message, whose texts are parts of `texts`: it stands first in the buffer, and the lane is moved. Every refusal keeps both.
pub fn send(lane: Lane, m: Message, texts: &[u8], out: &mut [u8]) -> Sent
    ensures { Sends lane m texts.now out.old out.new result }
{
    let cells = m.cells;
    let id = m.id;
    send_from(lane, m.kind, &cells, id, texts, out)
}
