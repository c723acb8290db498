// Receiving: the message that an input starts with, what it does to the lane, and what is written back.
ghost use Rattle.std.specs.Prelude.{◌≡◌, true, replicate};
ghost use Rattle.message.specs.Cells.{NUMBERS as MANY};
ghost use Rattle.message.specs.Checked.{ChecksInto};
ghost use Rattle.meant.specs.Events.{Sound};
ghost use Rattle.handover.specs.Inner.{asks_by, no_receipt, refused_by, told_by, Answers, Finishes};
ghost use Rattle.promises.specs.Receiving.{moved_for, Receives, ReceivesInto};

use cells::{clear, text_from};
use events::received_event;
use lane::{Event, Kind, Lane, Moved, Order};
use meant::Written;
use message::cells::NUMBERS;
use message::{Found, Message};
use promises::{Receipt, Received};
use reads::check_outlined;
use reads::features::sort_outlined;
use tags::attributes::PLACES;
use value::Span;

// Whether a message is a CheckAlive of Type 1, by its first cell.
fn asks_reply(kind: u8, there: u64, n: u64) -> bool
    ensures { result ≡ asks_by kind there n }
{
    if kind == Kind::CHECK_ALIVE {
        if there == 0 {
            return false;
        }
        return n == 1;
    }
    false
}

// What the lane becomes: 0 by the chart; 1 keeps it; every other refusal ends the connection.
fn moved_by(lane: Lane, refusal: u8, event: Event) -> Moved
    ensures { result ≡ moved_for lane refusal event }
{
    if refusal == 0 {
        return moves::received(lane, event);
    }
    if refusal == 1 {
        return Moved {
            refusal: 1,
            lane,
            order: Order::NONE,
        };
    }
    moves::ended(lane, refusal)
}

// What is written back; `asks` says that a reply is, to a CheckAlive with that Id.
fn answer(s: &[u8], refusal: u8, asks: bool, id: Option<Span>, out: &mut [u8]) -> Written
    requires { asks ≡ true → Sound s.now id }
    ensures { Answers s.now refusal asks id out.old out.new result }
{
    if refusal == 1 {
        return Written {
            refusal: 0,
            count: 0,
        };
    }
    if refusal != 0 {
        return written_back::notify(refusal, out);
    }
    if asks {
        return written_back::reply(s, id, out);
    }
    Written {
        refusal: 0,
        count: 0,
    }
}

// The answer with no room for what is to be written.
fn no_room(lane: Lane) -> Receipt
    ensures { result ≡ no_receipt lane }
{
    Receipt {
        refusal: 7,
        lane,
        order: Order::NONE,
        used: 0,
        written: 0,
        place: 0,
        kind: Kind::UNKNOWN,
        id: [0u8; 36],
    }
}

// The answer once all is written, to a message that is refused or no message.
fn refused(f: Found, moved: Moved, written: usize) -> Receipt
    ensures { result ≡ refused_by f moved written }
{
    let lane = moved.lane;
    Receipt {
        refusal: moved.refusal,
        lane: lane,
        order: moved.order,
        used: f.end,
        written: written,
        place: f.place,
        kind: Kind::UNKNOWN,
        id: [0u8; 36],
    }
}

// To one that is accepted.
fn told(f: Found, moved: Moved, written: usize) -> Receipt
    ensures { result ≡ told_by f moved written }
{
    let lane = moved.lane;
    let id = f.id;
    Receipt {
        refusal: moved.refusal,
        lane: lane,
        order: moved.order,
        used: f.end,
        written: written,
        place: f.place,
        kind: f.kind,
        id: id,
    }
}

// The answer once something is written or not. Only an accepted message stays in the cells.
fn finish(lane: Lane, f: Found, moved: Moved, w: Written, cells: &mut [u64]) -> Receipt
    ensures { Finishes lane f moved w cells.old cells.new result }
{
    if w.refusal != 0 {
        clear(&mut *cells);
        return no_room(lane);
    }
    if moved.refusal != 0 {
        clear(&mut *cells);
        return refused(f, moved, w.count);
    }
    told(f, moved, w.count)
}

// The message behind the glue in front of s, checked as check_into does. The parts are called here and there, so that they stay apart in the library for
// C, and their stacks are not needed at once.
fn found(s: &[u8], cells: &mut [u64]) -> Found
    requires { cells.old ≡ replicate MANY 0 }
    ensures { ChecksInto s.now cells.new result }
{
    let mut table = [0u16; PLACES];
    let outline = reader::outline(s, &mut table);
    let sort = sort_outlined(s, outline);
    check_outlined(s, outline, sort, &table, cells)
}

/// Receives the message that stands first in s, behind glue: checks it, moves the lane, and writes the Notification of a refusal or the
/// reply to a CheckAlive first into the buffer. What an accepted message says stands in the cells then; else they stay zeros.
pub fn receive_into(lane: Lane, s: &[u8], out: &mut [u8], cells: &mut [u64]) -> Receipt
    requires { cells.old ≡ replicate MANY 0 }
    ensures { ReceivesInto lane s.now out.old out.new cells.new result }
{
    let f = found(s, &mut *cells);
    let id = f.id;
    let event = received_event(s, f.kind, &*cells, id);
    let moved = moved_by(lane, f.refusal, event);
    let asks = asks_reply(f.kind, cells[0], cells[1]);
    let alive = text_from(cells[3], cells[4], cells[5]);
    let w = answer(s, moved.refusal, asks, alive, out);
    finish(lane, f, moved, w, cells)
}

/// Receives the message that stands first in s, behind glue: checks it, moves the lane, and writes the Notification of a refusal or the
/// reply to a CheckAlive first into the buffer.
pub fn receive(lane: Lane, s: &[u8], out: &mut [u8]) -> Received
    ensures { Receives lane s.now out.old out.new result }
{
    let mut cells = [0u64; NUMBERS];
    let r = receive_into(lane, s, out, &mut cells);
    let next = r.lane;
    let id = r.id;
    let message = Message {
        kind: r.kind,
        cells: cells,
        id: id,
    };
    Received {
        refusal: r.refusal,
        lane: next,
        order: r.order,
        used: r.used,
        written: r.written,
        place: r.place,
        message: message,
    }
}
