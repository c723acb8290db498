// Lists the messages of standard input, as the listing does; behind the line of a message that is refused stands a further one, which tells the row
// that decided and where its value stands.
#![tactic(auto)]

ghost use Rattle.std.specs.Prelude.{◌+◌, ◌≤◌, length};
ghost use Rattle.grammar.specs.Limits.{MESSAGE};
ghost use Rattle.windows.specs.Held.{Held};
ghost use Rattle.windows.specs.Printed.{LINE, Printed};
ghost use Rattle.why.specs.Reason.{reason_text, why_text, Explained, Behind, Stepped};

use decides::{Decision, decided};
use printing::put;
use std::io::Read;
use windows::ending::{Ending, ended, tell};
use windows::output::{Room, counted, made_room, put_column};
use windows::turn::turn;
use windows::window::{Window, opened, topped_up};

// `why`, and four numbers.
fn reason(out: &mut [u8], at: usize, row: u64, there: u64, start: u64, len: u64) -> usize
    requires { at + LINE ≤ length out.old }
    ensures { Printed out.old at (reason_text row there start len) out.new result }
{
    let a = put(out, at, b"why ");
    let b = put_column(out, a, row, b' ');
    let c = put_column(out, b, there, b' ');
    let d = put_column(out, c, start, b' ');
    put_column(out, d, len, b'\n')
}

// The line of what decided over a message in a window that stands behind `base` bytes.
fn why_line(out: &mut [u8], at: usize, base: u64, d: Decision) -> usize
    requires { at + LINE ≤ length out.old }
    ensures { Printed out.old at (why_text base d) out.new result }
{
    let row = d.row as u64;
    let value = d.value;
    match value {
        None => reason(out, at, row, 0, 0, 0),
        Some(p) => reason(out, at, row, 1, counted(base, p.start), p.len as u64),
    }
}

// What decided over the message that stands first in a window, told behind what waits.
fn explained(buf: &[u8], out: &mut [u8], waiting: usize, w: Window) -> usize
    requires held { Held w (length buf.now) }
    requires waiting_in_bounds { waiting + LINE ≤ length out.old }
    ensures { Explained buf.now w out.old waiting out.new result }
{
    let at = w.at;
    let len = w.len;
    let d = decided(&buf[at..len]);
    why_line(out, waiting, w.base, d)
}

// Behind the line of a message that is refused by that number: how much waits then.
fn behind(
    rt: &impl Print,
    buf: &[u8],
    out: &mut [u8],
    waiting: usize,
    w: Window,
    refusal: u8,
) -> Room
    requires held { Held w (length buf.now) }
    requires waiting_in_bounds { waiting ≤ length out.old }
    requires in_bounds { LINE ≤ length out.old }
    ensures { Behind buf.now w refusal out.old waiting out.new result }
{
    if refusal == 0 {
        return Room {
            waiting: waiting,
            written: true,
        };
    }
    let room = made_room(rt, &*out, waiting, false);
    let put = explained(buf, out, room.waiting, w);
    Room {
        waiting: put,
        written: room.written,
    }
}

/// Where the program is: the window, how much of the output waits, whether the last line is in it, and whether all that does not wait was written.
#[derive(Clone, Copy)]
struct Place {
    window: Window,
    waiting: usize,
    done: bool,
    written: bool,
}

// A turn of the listing, and what is behind its line.
fn step(rt: &impl Print, buf: &[u8], out: &mut [u8], waiting: usize, w: Window) -> Place
    requires held { Held w (length buf.now) }
    requires waiting_in_bounds { waiting + LINE ≤ length out.old }
    ensures { Stepped buf.now w out.old waiting out.new result }
{
    let stand = turn(buf, &mut *out, waiting, w);
    let window = stand.window;
    let room = behind(rt, buf, &mut *out, stand.waiting, w, stand.refusal);
    Place {
        window: window,
        waiting: room.waiting,
        done: stand.done,
        written: room.written,
    }
}

// Turn by turn as `list` of the listing, and a line more where a message is refused.
fn explain(rt: &impl Print, input: &mut impl Read, buf: &mut [u8], out: &mut [u8]) -> Ending
    requires in_bounds { MESSAGE ≤ length buf.old }
    requires in_bounds_2 { LINE ≤ length out.old }
{
    let mut w = opened();
    let mut waiting: usize = 0;
    let mut turns = u64::MAX;
    while 0 < turns {
        let room = made_room(rt, &*out, waiting, w.dry);
        if !room.written {
            return Ending::Unwritten;
        }
        w = topped_up(&mut *input, &mut *buf, w);
        if w.failed {
            return Ending::Broken;
        }
        let s = step(rt, &*buf, &mut *out, room.waiting, w);
        w = s.window;
        waiting = s.waiting;
        if !s.written {
            return Ending::Unwritten;
        }
        if s.done {
            return ended(rt, &*out, waiting);
        }
        turns -= 1;
    }
    Ending::Spent
}

fn main(rt: HostRuntime) {
    let mut buf = [0u8; 131072];
    let mut out = [0u8; 65536];
    let mut input = rt.reader();
    let ending = explain(&rt, &mut input, &mut buf, &mut out);
    tell(&rt, ending);
}
