// Texts with references for the bytes that may not stand raw, or would not read as themselves.
ghost use Rattle.std.specs.Prelude.{◌≡◌, [], ◌∷◌, true, ◌+◌, ◌≤◌, length};
ghost use Rattle.printing.specs.Put.{Wrote, Countable};
ghost use Rattle.spelling.specs.Written.{escape_byte, escape};
ghost use Rattle.spells.specs.Runs.{Stay, Kept};

use printing::{put, put_byte};

// 1 if b is no control character and is written as it is, else 0: a number, so that no branch is guessed.
fn stays(b: u8) -> u8
    ensures small { result ≤ 1 }
    ensures same { result ≡ 1 → escape_byte b ≡ b ∷ [] }
{
    ((31 < b) & (b != b'&') & (b != b'<') & (b != b'>') & (b != b'"')) as u8
}

// Whether the eight bytes at i are written as they are.
fn eight_stay(text: &[u8], i: usize) -> bool
    requires { i + 8 ≤ length text.now }
    ensures { result ≡ true → Stay text.now i 8 }
{
    let n = stays(text[i])
        + stays(text[i + 1])
        + stays(text[i + 2])
        + stays(text[i + 3])
        + stays(text[i + 4])
        + stays(text[i + 5])
        + stays(text[i + 6])
        + stays(text[i + 7]);
    n == 8
}

// Where fewer than eight bytes in a row are written as they are: one branch for eight bytes.
fn stay_eights(text: &[u8], at: usize) -> usize
    requires { at ≤ length text.now }
    ensures { Kept text.now at result }
{
    let mut i = at;
    // Counted by hand: the answer is how far the steps of eight came, which a `for` over them does not hand out.
    while 8 <= text.len() - i {
        if !eight_stay(text, i) {
            return i;
        }
        i += 8;
    }
    i
}

// Where the bytes end that are written as they are.
fn stay_run(text: &[u8], at: usize) -> usize
    requires { at ≤ length text.now }
    ensures { Kept text.now at result }
{
    for i in stay_eights(text, at)..text.len() {
        if stays(text[i]) == 0 {
            return i;
        }
    }
    text.len()
}

// What b becomes, and the next place; its references are laid out first, so bytes that stay come here seldom.
fn put_reference(out: &mut [u8], at: usize, b: u8) -> usize
    requires { Countable at (escape_byte b) }
    ensures { Wrote out.old at (escape_byte b) out.new result }
{
    match b {
        b'&' => put(out, at, b"&amp;"),
        b'<' => put(out, at, b"&lt;"),
        b'>' => put(out, at, b"&gt;"),
        b'"' => put(out, at, b"&quot;"),
        9 => put(out, at, b"&#9;"),
        10 => put(out, at, b"&#10;"),
        13 => put(out, at, b"&#13;"),
        _ => put_byte(out, at, b),
    }
}

/// A text as it stands between double quotes, and the next place. What stays is put down run by run.
pub fn put_escaped(out: &mut [u8], at: usize, text: &[u8]) -> usize
    requires { Countable at (escape text.now) }
    ensures { Wrote out.old at (escape text.now) out.new result }
{
    let mut i = 0;
    let mut next = at;
    // By hand: the next place is what was read there.
    while i < text.len() {
        let j = stay_run(text, i);
        let mid = put(out, next, &text[i..j]);
        if text.len() <= j {
            return mid;
        }
        next = put_reference(out, mid, text[j]);
        i = j + 1;
    }
    next
}
