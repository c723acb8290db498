// Lists the messages of standard input: a line for each, and a last line that says how the input ends.
// Only a window of the input is held: list_step says of it what the whole input shows.
#![tactic(auto)]

ghost use Rattle.std.specs.Prelude.{◌≡◌, ◌≤◌, length};
ghost use Rattle.grammar.specs.Limits.{MESSAGE};
ghost use Rattle.windows.specs.Printed.{LINE};
ghost use Rattle.listing.specs.Turns.{Ended, Stopped, Unended};
ghost use Rattle.windows.specs.declared.ending.Ending.TheVariants.{Whole, Broken, Spent};

use std::io::Read;
use windows::ending::{Ending, ended, tell};
use windows::output::made_room;
use windows::turn::turn;
use windows::window::{opened, topped_up};

// Nothing says that the input ends, and a proved loop does: the turns are counted down from a number that only an input of 2^63 bytes uses up.
// What waits is handed out before a turn that reads, since a read may have to wait. Where reading fails there is no last line: it would say that the input
// ends there. A write that fails is no end either.
fn list(rt: &impl Print, input: &mut impl Read, buf: &mut [u8], out: &mut [u8]) -> Ending
    requires in_bounds { MESSAGE ≤ length buf.old }
    requires in_bounds_2 { LINE ≤ length out.old }
    ensures ended { result ≡ Whole → Ended out.new }
    ensures stopped { result ≡ Broken → Stopped out.new }
    ensures unended { result ≡ Spent → Unended out.new }
{
    let mut w = opened();
    let mut waiting: usize = 0;
    let mut turns = u64::MAX;
    while 0 < turns {
        let room = made_room(rt, &*out, waiting, w.dry);
        if !room.written {
            return Ending::Unwritten;
        }
        w = topped_up(&mut *input, &mut *buf, w);
        if w.failed {
            return Ending::Broken;
        }
        let stand = turn(&*buf, &mut *out, room.waiting, w);
        w = stand.window;
        waiting = stand.waiting;
        if stand.done {
            return ended(rt, &*out, waiting);
        }
        turns -= 1;
    }
    Ending::Spent
}

fn main(rt: HostRuntime) {
    let mut buf = [0u8; 131072];
    let mut out = [0u8; 65536];
    let mut input = rt.reader();
    let ending = list(&rt, &mut input, &mut buf, &mut out);
    tell(&rt, ending);
}
