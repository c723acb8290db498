// The part of the input that is held: bytes at..len of a buffer.
ghost use Rattle.std.specs.Prelude.{◌≡◌, ◌+◌, ◌<◌, ◌≤◌, length, take, drop};
ghost use Rattle.grammar.specs.Limits.{MESSAGE};
ghost use Rattle.windows.specs.Held.{has_end, Filled, fresh, Held, ToppedUp, without};

use grammar::Limits;
use std::io::Read;

/// `base` bytes of the input stand before it. `last`: nothing was read behind it, since the input ends there, or since reading `failed`. `dry`: no
/// message ends in it, so more is to be read.
// Places in a buffer, no Vec: the memory is fixed.
#[derive(Clone, Copy)]
pub struct Window {
    pub base: u64,
    pub at: usize,
    pub len: usize,
    pub last: bool,
    pub failed: bool,
    pub dry: bool,
}

/// What reading brought: so many bytes, whether they are the last, and whether it failed.
#[derive(Clone, Copy)]
pub struct Got {
    pub count: usize,
    pub last: bool,
    pub failed: bool,
}

/// At the start of an input.
pub fn opened() -> Window
    ensures { result ≡ fresh }
{
    Window {
        base: 0,
        at: 0,
        len: 0,
        last: false,
        failed: false,
        dry: true,
    }
}

// One read behind the first len bytes: how many came. None come where the input ends or the read fails.
fn read_behind(input: &mut impl Read, buf: &mut [u8], len: usize) -> Got
    requires { len ≤ length buf.old }
    ensures count_in_bounds { len + result.count ≤ length buf.new }
    ensures buf_unchanged { take len buf.new ≡ take len buf.old }
{
    match input.read(&mut buf[len..]) {
        Ok(count) => Got {
            count: count,
            last: count == 0,
            failed: false,
        },
        Err(_) => Got {
            count: 0,
            last: true,
            failed: true,
        },
    }
}

// Whether a `>` is among them. A message ends with one.
fn has_end(s: &[u8]) -> bool
    ensures { result ≡ has_end s.now }
{
    let mut k = 0;
    while k < s.len() {
        if s[k] == b'>' {
            return true;
        }
        k += 1;
    }
    false
}

// Reads behind the first `from` bytes until a `>` has come, the size of a message is held, the input ends or a read fails: how many bytes are in it
// then. No message ends in those that were there, so without a `>` none does, and to ask after each read would cost the square of the length.
fn fill(input: &mut impl Read, buf: &mut [u8], from: usize) -> Got
    requires from_bound { from < MESSAGE }
    requires in_bounds { MESSAGE ≤ length buf.old }
    ensures { Filled from buf.old buf.new result }
{
    let mut len = from;
    while len < Limits::MESSAGE {
        let got = read_behind(&mut *input, &mut *buf, len);
        if got.count == 0 {
            return Got {
                count: len,
                last: true,
                failed: got.failed,
            };
        }
        let next = len + got.count;
        if has_end(&buf[len..next]) {
            return Got {
                count: next,
                last: false,
                failed: false,
            };
        }
        len = next;
    }
    Got {
        count: len,
        last: false,
        failed: false,
    }
}

// Moves n bytes to the front.
fn move_to_front(buf: &mut [u8], from: usize, n: usize)
    requires { from + n ≤ length buf.old }
    ensures { take n buf.new ≡ take n (drop from buf.old) }
{
    let mut i = 0;
    while i < n {
        buf[i] = buf[from + i];
        i += 1;
    }
}

/// Where no message ends in the window, reads on: until one may end in it, or the input ends.
pub fn topped_up(input: &mut impl Read, buf: &mut [u8], w: Window) -> Window
    requires held { Held w (length buf.old) }
    requires in_bounds { MESSAGE ≤ length buf.old }
    ensures { ToppedUp w buf.old result buf.new }
{
    let n = w.len - w.at;
    if w.last {
        return w;
    }
    if w.dry {
        move_to_front(&mut *buf, w.at, n);
        let got = fill(&mut *input, &mut *buf, n);
        return Window {
            base: w.base,
            at: 0,
            len: got.count,
            last: got.last,
            failed: got.failed,
            dry: false,
        };
    }
    w
}

/// Without its first n bytes.
pub fn dropped(w: Window, n: usize, dry: bool) -> Window
    requires { w.at + n ≤ w.len }
    ensures { result ≡ without w n dry }
{
    Window {
        base: std::num::wrapping_add_u64(w.base, n as u64),
        at: w.at + n,
        len: w.len,
        last: w.last,
        failed: w.failed,
        dry: dry,
    }
}
