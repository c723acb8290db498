// Runs the cases of standard input, a line each, and writes each line up to its tab with what the call answers. A line that is empty or starts with
// `#` is copied. The first letter of a line says which call it is; the heads of `calls`, of `asks` in `case_asks` and of `given` in `case_words` say what its words are. Its bytes stand
// behind a tab: `\xHH` is one byte, and `\{N}` makes the next byte N of them.
#![tactic(auto)]

ghost use Rattle.std.specs.Prelude.{◌≤◌, length};

mod calls;

use calls::Lanes;
use case_asks::asks;
use case_words::line;
use case_words::show::put;
use std::io::Read;

// The part of a line that is written again: all of it where a number is read.
fn shown(s: &[u8], tab: usize) -> usize {
    match line::byte(s, 0) {
        b'i' | b'n' | b'g' | b'v' | b't' => s.len(),
        _ => tab,
    }
}

fn first(rt: &impl Print, s: &[u8], len: usize) {
    if s.len() < len {
        return;
    }
    put(rt, &s[..len]);
}

// The bytes behind the tab, if there is one.
fn behind(s: &[u8], tab: usize, out: &mut [u8]) -> usize {
    if s.len() <= tab {
        return 0;
    }
    let from = tab + 1;
    line::bytes(&s[from..], out)
}

// One call, of which v are the first bytes.
fn call(rt: &impl Print, l: Lanes, s: &[u8], v: &[u8], len: usize, wire: &mut [u8]) -> Lanes {
    if v.len() < len {
        return l;
    }
    // A letter is matched to its call: a table of functions would hold the same letters, and hide which call each is.
    match line::byte(s, 0) {
        b'a' | b'l' | b'p' | b'r' | b's' => calls::play(rt, l, s, &v[..len], wire),
        _ => {
            asks::ask(rt, s, &v[..len]);
            l
        }
    }
}

fn case(rt: &impl Print, l: Lanes, s: &[u8], out: &mut [u8], wire: &mut [u8]) -> Lanes {
    let tab = line::find(s, 0, b'\t');
    first(rt, s, shown(s, tab));
    if s.len() == 0 {
        put(rt, b"\n");
        return l;
    }
    if s[0] == b'#' {
        put(rt, b"\n");
        return l;
    }
    put(rt, b": ");
    let len = behind(s, tab, &mut *out);
    call(rt, l, &s[..tab], &*out, len, wire)
}

fn run(rt: &impl Print, text: &[u8], out: &mut [u8], wire: &mut [u8]) {
    let mut lanes = calls::start();
    let mut at: usize = 0;
    // By hand: the next place is what was read there.
    while at < text.len() {
        let end = line::find(text, at, b'\n');
        lanes = case(rt, lanes, &text[at..end], &mut *out, &mut *wire);
        if 1000000 < end {
            return;
        }
        at = end + 1;
    }
}

// Fills a buffer from its start: how many bytes the input had, or as many as there is room for. A read that fails ends the input.
fn read_full<R: Read>(input: &mut R, buffer: &mut [u8]) -> usize
    ensures { result ≤ length buffer.new }
{
    let mut done: usize = 0;
    // By hand: a read fills as much of the buffer as it likes.
    while done < buffer.len() {
        let n = match input.read(&mut buffer[done..]) {
            Ok(n) => n,
            Err(_) => 0,
        };
        if n == 0 {
            break;
        }
        done += n;
    }
    done
}

// Runs the cases that are read into the first buffer.
fn answer(rt: &(impl Print + Input), text: &mut [u8; 524288], out: &mut [u8], wire: &mut [u8]) {
    let n = read_full(&mut rt.reader(), &mut *text);
    run(rt, &text[..n], out, wire);
}

fn main(rt: HostRuntime) {
    let mut text = [0u8; 524288];
    let mut out = [0u8; 70000];
    let mut wire = [b'~'; 600];
    answer(&rt, &mut text, &mut out, &mut wire);
}
