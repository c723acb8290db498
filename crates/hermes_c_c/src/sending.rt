// Sending a message.
ghost use Rattle.c_promises.specs.Lanes.{lane_of};
ghost use Rattle.c_promises.specs.Sending.{message_of, SendsAs};

use message::cells::NUMBERS;

/// Sends the message of this kind, these cells and this BoardId, whose texts are parts of `texts`: it stands first in the buffer, and the lane is moved.
/// Every refusal keeps both. Answers the refusal; the belt order; and how many bytes of the buffer are written.
#[unsafe(no_mangle)]
pub extern "C" fn tryphomel_send(
    side: u8,
    state: &mut u8,
    offered: &mut [u8; 36],
    running: &mut [u8; 36],
    length: &mut u8,
    forecast: &mut [u8; 80],
    kind: u64,
    cells: &[u64; NUMBERS],
    id: &[u8; 36],
    texts: &[u8],
    out: &mut [u8],
    order: &mut u8,
    written: &mut u64,
) -> u8
    ensures { SendsAs (lane_of side state.old offered.old running.old length.old forecast.old) (message_of kind cells.now id.now) texts.now out.old out.new result state.new offered.new running.new length.new forecast.new order.new written.new }
{
    hermes_c::tryphomel_send(
        side, state, offered, running, length, forecast, kind, cells, id, texts, out, order,
        written,
    )
}
