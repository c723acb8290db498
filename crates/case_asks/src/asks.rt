// Calls that change no lane. `check NAME`: what reading answers, and behind the semicolon what checking does, with the values of an accepted message in
// table order: an absent one is `-`, a text its place and length, features their bits. `write ROOM` and a message. `move` with a record, a kind and an
// id: what a message does to a lane, received and sent; bytes behind the tab are its ForecastId.
use crate::feeding::feed;
use crate::numbers::worth;
use case_words::given::{forecast, id, kind, message, record};
use case_words::line::{byte, decimal, low};
use case_words::show;
use case_words::show::{put, small, told};
use cells::{Cell, cell_of};
use lane::{Event, Forecast, Lane, Moved};
use meant::Written;
use message::{Checked, Message};
use reader::answer::Answer;
use rows::data::{Form, rows_of};

/// The room of a buffer for what is written.
const ROOM: usize = 6500;

fn three(rt: &impl Print, answer: u64, start: usize, place: usize) {
    told(rt, b"", answer);
    told(rt, b" ", start as u64);
    told(rt, b" ", place as u64);
}

fn read(rt: &impl Print, a: Answer) {
    match a {
        Answer::Ends { start, end } => three(rt, 0, start, end),
        Answer::More { start } => three(rt, 1, start, start),
        Answer::Malformed { start, place } => three(rt, 2, start, place),
        Answer::TooLong { start } => three(rt, 3, start, start),
    }
}

fn value(rt: &impl Print, form: Form, cell: Cell, id: [u8; 36]) {
    if cell.there == 0 {
        put(rt, b" -");
        return;
    }
    match form {
        Form::Text { .. } | Form::SomeText { .. } | Form::Version => {
            told(rt, b" ", cell.a);
            told(rt, b"+", cell.b);
        }
        Form::Guid => {
            put(rt, b" ");
            put(rt, &id);
        }
        Form::Features | Form::Int { .. } | Form::Positive => {
            told(rt, b" ", cell.a);
            if 0 < cell.b {
                told(rt, b"+", cell.b);
            }
        }
    }
}

fn values(rt: &impl Print, m: Message) {
    for (i, row) in rows_of(m.kind).iter().enumerate() {
        value(rt, row.form, cell_of(&m.cells, i), m.id);
    }
}

fn checked(rt: &impl Print, c: Checked) {
    small(rt, b"; ", c.refusal);
    told(rt, b" ", c.start as u64);
    told(rt, b" ", c.end as u64);
    told(rt, b" ", c.place as u64);
    let m = c.message;
    small(rt, b" ", m.kind);
    if c.refusal == 0 {
        values(rt, m);
    }
    put(rt, b"\n");
}

fn check(rt: &impl Print, v: &[u8]) {
    read(rt, reader::read(v));
    checked(rt, reads::check(v));
}

// Writes in the first bytes of a buffer.
fn written(m: Message, texts: &[u8], out: &mut [u8], room: usize) -> Written {
    let end = room.min(out.len());
    writes::write(m, texts, &mut out[..end])
}

fn write(rt: &impl Print, s: &[u8], texts: &[u8]) {
    let room = decimal(s, 6);
    let m = message(s, room.next + 1);
    let mut out = [b'~'; ROOM];
    let w = written(m, texts, &mut out, room.value as usize);
    small(rt, b"refusal ", w.refusal);
    show::room(rt, &out, w.count, room.value as usize);
    put(rt, b"\n");
    show::bytes(rt, b"", &out, w.count);
}

fn moved(rt: &impl Print, word: &[u8], before: Lane, m: Moved) {
    small(rt, word, m.refusal);
    small(rt, b" order ", m.order);
    put(rt, b" ");
    show::record(rt, m.lane);
    show::change(rt, before, m.lane);
}

// The record from 5 on, a kind and an id.
fn moves(rt: &impl Print, s: &[u8], v: &[u8]) {
    let lane = Lane {
        forecast: Forecast::none(),
        ..record(s, 5, b"")
    };
    let n = decimal(s, 7);
    let k = kind(s, n.next + 5);
    let kind = low(k.value);
    let at = k.next;
    if 1000000 < at {
        return;
    }
    let id = id(byte(s, at + 1));
    let forecast = if v.is_empty() {
        None
    } else {
        Some(forecast(v))
    };
    let event = Event { kind, id, forecast };
    moved(rt, b"received ", lane, moves::received(lane, event));
    moved(rt, b"; sent ", lane, moves::sent(lane, event));
    put(rt, b"\n");
}

/// The call that a line asks for.
pub fn ask(rt: &impl Print, s: &[u8], v: &[u8]) {
    let letter = byte(s, 0);
    // A letter is matched to its call: a table of functions would hold the same letters, and hide which call each is.
    match letter {
        b'c' => check(rt, v),
        b'f' => feed(rt, v),
        b'm' => moves(rt, s, v),
        b'w' => write(rt, s, v),
        _ => {
            let n = decimal(s, 4);
            worth(rt, letter, v, n.value as usize);
        }
    }
}
