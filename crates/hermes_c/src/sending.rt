// Sending a message.
ghost use Rattle.c_promises.specs.Lanes.{lane_of};
ghost use Rattle.c_promises.specs.Sending.{message_of, SendsAs};

use cells::kind_from;
use lane::{Forecast, Lane};
use message::cells::NUMBERS;

/// Sends the message of this kind, these cells and this BoardId, whose texts are parts of `texts`: it stands first in the buffer, and the lane is moved.
/// Every refusal keeps both. Answers the refusal; the belt order; and how many bytes of the buffer are written.
pub fn tryphomel_send(
    side: u8,
    state: &mut u8,
    offered: &mut [u8; 36],
    running: &mut [u8; 36],
    length: &mut u8,
    forecast: &mut [u8; 80],
    kind: u64,
    cells: &[u64; NUMBERS],
    id: &[u8; 36],
    texts: &[u8],
    out: &mut [u8],
    order: &mut u8,
    written: &mut u64,
) -> u8
    ensures { SendsAs (lane_of side state.old offered.old running.old length.old forecast.old) (message_of kind cells.now id.now) texts.now out.old out.new result state.new offered.new running.new length.new forecast.new order.new written.new }
{
    let o = *offered;
    let r = *running;
    let f = *forecast;
    let kept = Forecast {
        length: *length,
        bytes: f,
    };
    let lane = Lane {
        side: side,
        state: *state,
        offered: o,
        running: r,
        forecast: kept,
    };
    let k = kind_from(kind);
    let b = *id;
    let a = handover::send_from(lane, k, &*cells, b, texts, out);
    let next = a.lane;
    let o = next.offered;
    let r = next.running;
    let kept = next.forecast;
    let f = kept.bytes;
    *state = next.state;
    *offered = o;
    *running = r;
    *length = kept.length;
    *forecast = f;
    *order = a.order;
    *written = a.written as u64;
    a.refusal
}
