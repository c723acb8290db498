// Calls on lanes. A line names the lane: `u` upstream, `d` downstream, `r` the record that was put down last, `l` where the last call led to. `put LANE`
// and a record put it down, with the bytes of its ForecastId behind the tab. `receive LANE ROOM NAME`; `send LANE ROOM` and a message; `arrive LANE ROOM NAME` receives what was sent last; `lost LANE`.
ghost use Rattle.std.specs.Prelude.{◌≤◌};

use case_words::given::{message, record};
use case_words::line::{byte, decimal, find};
use case_words::show;
use case_words::show::{put, small, told};
use handover::{Received, Sent};
use lane::Lane;
use message::Message;

/// The room of a buffer for what is written back.
const ROOM: usize = 600;

/// The lanes that a line can name, and how many bytes were sent last.
#[derive(Clone, Copy)]
pub struct Lanes {
    up: Lane,
    down: Lane,
    set: Lane,
    last: Lane,
    sent: usize,
}

/// A lane after a call, and how many bytes were sent last.
#[derive(Clone, Copy)]
struct After {
    lane: Lane,
    sent: usize,
}

/// Two new lanes.
pub fn start() -> Lanes {
    let up = Lane::upstream();
    let down = Lane::downstream();
    Lanes {
        up,
        down,
        set: up,
        last: up,
        sent: 0,
    }
}

fn named(l: Lanes, letter: u8) -> Lane {
    let up = l.up;
    let down = l.down;
    let set = l.set;
    let last = l.last;
    match letter {
        b'u' => up,
        b'd' => down,
        b'r' => set,
        _ => last,
    }
}

// The lanes with the one that a call led to.
fn kept(l: Lanes, letter: u8, after: After) -> Lanes {
    let up = l.up;
    let down = l.down;
    let set = l.set;
    let last = after.lane;
    let sent = after.sent;
    match letter {
        b'u' => Lanes {
            up: last,
            down,
            set,
            last,
            sent,
        },
        b'd' => Lanes {
            up,
            down: last,
            set,
            last,
            sent,
        },
        b'p' => Lanes {
            up,
            down,
            set: last,
            last,
            sent,
        },
        _ => Lanes {
            up,
            down,
            set,
            last,
            sent,
        },
    }
}

fn answer(rt: &impl Print, refusal: u8, order: u8, before: Lane, after: Lane) {
    small(rt, b"", refusal);
    small(rt, b", order ", order);
    put(rt, b", ");
    show::record(rt, after);
    show::change(rt, before, after);
}

// Receives in the first bytes of a buffer.
fn received(lane: Lane, s: &[u8], out: &mut [u8], room: usize) -> Received {
    if out.len() < room {
        return handover::receive(lane, s, out);
    }
    handover::receive(lane, s, &mut out[..room])
}

// Sends in the first bytes of a buffer.
fn sent(lane: Lane, m: Message, texts: &[u8], out: &mut [u8], room: usize) -> Sent {
    if out.len() < room {
        return handover::send(lane, m, texts, out);
    }
    handover::send(lane, m, texts, &mut out[..room])
}

fn receive(rt: &impl Print, lane: Lane, s: &[u8], room: usize) -> Lane {
    let mut out = [b'~'; ROOM];
    let r = received(lane, s, &mut out, room);
    let after = r.lane;
    let m = r.message;
    answer(rt, r.refusal, r.order, lane, after);
    small(rt, b", kind ", m.kind);
    told(rt, b", place ", r.place as u64);
    told(rt, b", used ", r.used as u64);
    show::room(rt, &out, r.written, room);
    put(rt, b"\n");
    show::bytes(rt, b"  ", &out, r.written);
    after
}

fn arrive(rt: &impl Print, lane: Lane, wire: &[u8], len: usize, room: usize) -> Lane {
    if wire.len() < len {
        return lane;
    }
    receive(rt, lane, &wire[..len], room)
}

fn fill(out: &mut [u8]) {
    let mut i: usize = 0;
    while i < out.len() {
        out[i] = b'~';
        i += 1;
    }
}

fn send(
    rt: &impl Print,
    lane: Lane,
    m: Message,
    texts: &[u8],
    wire: &mut [u8],
    room: usize,
) -> After {
    fill(&mut *wire);
    let r = sent(lane, m, texts, &mut *wire, room);
    let after = r.lane;
    answer(rt, r.refusal, r.order, lane, after);
    show::room(rt, &*wire, r.written, room);
    put(rt, b"\n");
    After {
        lane: after,
        sent: r.written,
    }
}

fn lost(rt: &impl Print, lane: Lane) -> Lane {
    let after = lane.lost();
    show::record(rt, after);
    show::change(rt, lane, after);
    put(rt, b"\n");
    after
}

fn set(rt: &impl Print, lane: Lane) -> Lane {
    show::record(rt, lane);
    put(rt, b"\n");
    lane
}

// The lane that a call leads to; what it names begins at a place.
fn step(rt: &impl Print, l: Lanes, s: &[u8], at: usize, v: &[u8], wire: &mut [u8]) -> After
    requires { at ≤ 100 }
{
    let lane = named(l, byte(s, at));
    let n = decimal(s, at + 2);
    let room = n.value as usize;
    let sent = l.sent;
    // A letter is matched to its call: a table of functions would hold the same letters, and hide which call each is.
    match byte(s, 0) {
        b's' => send(rt, lane, message(s, n.next + 1), v, wire, room),
        b'a' => After {
            lane: arrive(rt, lane, &*wire, sent, room),
            sent,
        },
        b'r' => After {
            lane: receive(rt, lane, v, room),
            sent,
        },
        b'l' => After {
            lane: lost(rt, lane),
            sent,
        },
        _ => After {
            lane: set(rt, record(s, at + 2, v)),
            sent,
        },
    }
}

// Which lane changes: a call leaves a record that was put down.
fn changes(s: &[u8], at: usize) -> u8 {
    let letter = byte(s, at);
    if letter == b'r' {
        if byte(s, 0) == b'p' {
            return b'p';
        }
    }
    letter
}

/// Plays the call of a line.
pub fn play(rt: &impl Print, l: Lanes, s: &[u8], v: &[u8], wire: &mut [u8]) -> Lanes {
    let at = find(s, 0, b' ');
    if 99 < at {
        return l;
    }
    let after = step(rt, l, s, at + 1, v, wire);
    kept(l, changes(s, at + 1), after)
}
