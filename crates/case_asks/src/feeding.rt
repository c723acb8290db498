// An input listed by windows that grow by few bytes, by more, and by a message's size.
use case_words::show::{put, small, told};
use lines::Listed;

/// Bytes at..len of the input are in the window.
#[derive(Clone, Copy)]
struct Window {
    at: usize,
    len: usize,
}

fn line(rt: &impl Print, start: usize, end: usize, kind: u8, refusal: u8) {
    told(rt, b" ", start as u64);
    told(rt, b" ", end as u64);
    small(rt, b" ", kind);
    small(rt, b" ", refusal);
    put(rt, b",");
}

fn end_line(rt: &impl Print, place: usize, answer: u8) {
    told(rt, b" end ", place as u64);
    small(rt, b" ", answer);
}

// a + b, at most `most`.
fn sum(a: usize, b: usize, most: usize) -> usize {
    a.saturating_add(b).min(most)
}

// One step of the listing of s, and the window behind it, if the last line is not printed. Where a line is short of bytes the window grows.
fn turn(rt: &impl Print, s: &[u8], w: Window, more: usize) -> Option<Window> {
    let Window { at, len } = w;
    if s.len() < len || len < at {
        return None;
    }
    match lists::list_step(&s[at..len], len == s.len()) {
        Listed::Line {
            start,
            end,
            kind,
            refusal,
        } => {
            line(rt, sum(at, start, len), sum(at, end, len), kind, refusal);
            Some(Window {
                at: sum(at, end, len),
                len,
            })
        }
        Listed::Drop { glue } => Some(Window {
            at: sum(at, glue, len),
            len: sum(len, more, s.len()),
        }),
        Listed::End { at: place, answer } => {
            end_line(rt, sum(at, place, len), answer);
            None
        }
    }
}

fn list(rt: &impl Print, s: &[u8], more: usize) {
    let mut window = Some(Window { at: 0, len: 0 });
    for _ in 0..u64::MAX {
        let Some(w) = window else {
            return;
        };
        window = turn(rt, s, w, more);
    }
}

/// `feed`: the lines of an input, by windows that grow by 37, 1,000 and 65,536 bytes.
pub fn feed(rt: &impl Print, s: &[u8]) {
    put(rt, b"by 37:");
    list(rt, s, 37);
    put(rt, b"; by 1000:");
    list(rt, s, 1000);
    put(rt, b"; by 65536:");
    list(rt, s, 65536);
    put(rt, b"\n");
}
