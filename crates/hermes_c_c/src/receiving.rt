// Receiving a message.
ghost use Rattle.c_promises.specs.Lanes.{lane_of};
ghost use Rattle.c_promises.specs.Receiving.{ReceivesAs};

use message::cells::NUMBERS;

/// Receives the message that stands first in the bytes, behind glue: checks it, moves the lane, and writes the Notification of a refusal or the
/// reply to a CheckAlive first into the buffer. Answers the refusal; the belt order; how many of the bytes are used, and how many of the buffer
/// are written; the place of a malformed byte; and an accepted message's kind, cells and BoardId.
#[unsafe(no_mangle)]
pub extern "C" fn tryphomel_receive(
    side: u8,
    state: &mut u8,
    offered: &mut [u8; 36],
    running: &mut [u8; 36],
    length: &mut u8,
    forecast: &mut [u8; 80],
    bytes: &[u8],
    out: &mut [u8],
    kind: &mut u64,
    cells: &mut [u64; NUMBERS],
    id: &mut [u8; 36],
    order: &mut u8,
    used: &mut u64,
    written: &mut u64,
    place: &mut u64,
) -> u8
    ensures { ReceivesAs (lane_of side state.old offered.old running.old length.old forecast.old) bytes.now out.old out.new result state.new offered.new running.new length.new forecast.new kind.new cells.new id.new order.new used.new written.new place.new }
{
    hermes_c::tryphomel_receive(
        side, state, offered, running, length, forecast, bytes, out, kind, cells, id, order, used,
        written, place,
    )
}
