// Lines into a buffer, and the buffer to standard output. `made_room` leaves room for a line.
ghost use Rattle.std.specs.Prelude.{◌≡◌, ◌+◌, ◌-◌, ◌≤◌, length, if◌then◌else◌};
ghost use Rattle.printing.specs.Put.{Wrote, Countable};
ghost use Rattle.lines.specs.Text.{column};
ghost use Rattle.windows.specs.Printed.{LINE as LINE_SIZE, in64, left, line_printed, last_printed, Printed};

use printing::{put, put_byte, put_digits};

/// What one line takes at most: a word and a blank, four numbers of twenty digits, and a byte behind each.
const LINE: usize = 88;

/// A number, and a byte behind it.
pub fn put_column(out: &mut [u8], at: usize, n: u64, b: u8) -> usize
    requires { Countable at (column n b) }
    ensures { Wrote out.old at (column n b) out.new result }
{
    let next = put_digits(out, at, n);
    put_byte(out, next, b)
}

/// A place in the window as the input counts it. The count starts again from 0 at 2^64 bytes.
pub fn counted(base: u64, place: usize) -> u64
    ensures { result ≡ in64 (base + place) }
{
    std::num::wrapping_add_u64(base, place as u64)
}

/// The line of a message in a window that stands behind `base` bytes.
pub fn line(
    out: &mut [u8],
    at: usize,
    base: u64,
    start: usize,
    end: usize,
    kind: u8,
    refusal: u8,
) -> usize
    requires { at + LINE_SIZE ≤ length out.old }
    ensures { Printed out.old at (line_printed base start end kind refusal) out.new result }
{
    let first = counted(base, start);
    let past = counted(base, end);
    let a = put_column(out, at, first, b' ');
    let b = put_column(out, a, past, b' ');
    let c = put_column(out, b, kind as u64, b' ');
    put_column(out, c, refusal as u64, b'\n')
}

/// The last line.
pub fn end_line(out: &mut [u8], at: usize, base: u64, place: usize, answer: u8) -> usize
    requires { at + LINE_SIZE ≤ length out.old }
    ensures { Printed out.old at (last_printed base place answer) out.new result }
{
    let byte = counted(base, place);
    let a = put(out, at, b"end ");
    let b = put_column(out, a, byte, b' ');
    put_column(out, b, answer as u64, b'\n')
}

/// How much waits, and whether what does not was written.
#[derive(Clone, Copy)]
pub struct Room {
    pub waiting: usize,
    pub written: bool,
}

/// Hands the first `at` bytes to the system: whether it took them all.
pub fn flush(rt: &impl Print, out: &[u8], at: usize) -> bool
    requires { at ≤ length out.now }
{
    rt.write_all(&out[..at]).is_ok()
}

// All of it is handed out.
fn emptied(rt: &impl Print, out: &[u8], at: usize) -> Room
    requires { at ≤ length out.now }
    ensures { result.waiting ≡ 0 }
{
    let written = flush(rt, out, at);
    Room {
        waiting: 0,
        written: written,
    }
}

// How much may go on waiting in a buffer of that size.
fn most(size: usize, dry: bool) -> usize
    requires { LINE_SIZE ≤ size }
    ensures { result ≡ (if dry then 0 else size - LINE_SIZE) }
{
    if dry {
        return 0;
    }
    size - LINE
}

/// Hands out what waits, the first `at` bytes, if more of the input may be waited for, or if there is no room behind it for a further line.
pub fn made_room(rt: &impl Print, out: &[u8], at: usize, dry: bool) -> Room
    requires at_in_bounds { at ≤ length out.now }
    requires in_bounds { LINE_SIZE ≤ length out.now }
    ensures { result.waiting ≡ left dry (length out.now) at }
{
    if at <= most(out.len(), dry) {
        return Room {
            waiting: at,
            written: true,
        };
    }
    emptied(rt, out, at)
}
