// One turn of the listing: a step on the window that is held, printed behind what waits.
ghost use Rattle.std.specs.Prelude.{◌+◌, ◌≤◌, length};
ghost use Rattle.windows.specs.Held.{Held, Turned};
ghost use Rattle.windows.specs.Printed.{LINE};

use crate::output::{end_line, line};
use crate::window::{Window, dropped};
use lines::Listed;

/// Where the listing is: the window, how much of the output waits, whether the last line is in it; and the refusal of the message that was listed, 0 if none was.
#[derive(Clone, Copy)]
pub struct Stand {
    pub window: Window,
    pub waiting: usize,
    pub done: bool,
    pub refusal: u8,
}

/// One step of the listing.
pub fn turn(buf: &[u8], out: &mut [u8], waiting: usize, w: Window) -> Stand
    requires held { Held w (length buf.now) }
    requires waiting_in_bounds { waiting + LINE ≤ length out.old }
    ensures { Turned buf.now w out.old waiting out.new result }
{
    let at = w.at;
    let len = w.len;
    let listed = lists::list_step(&buf[at..len], w.last);
    match listed {
        Listed::Line {
            start,
            end,
            kind,
            refusal,
        } => {
            let put = line(&mut *out, waiting, w.base, start, end, kind, refusal);
            Stand {
                window: dropped(w, end, false),
                waiting: put,
                done: false,
                refusal: refusal,
            }
        }
        Listed::Drop { glue } => Stand {
            window: dropped(w, glue, true),
            waiting: waiting,
            done: false,
            refusal: 0,
        },
        Listed::End { at: place, answer } => Stand {
            window: w,
            waiting: end_line(&mut *out, waiting, w.base, place, answer),
            done: true,
            refusal: 0,
        },
    }
}
