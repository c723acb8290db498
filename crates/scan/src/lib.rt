// The smallest readers: byte classes, glue, a byte, a fixed string, a name. Each says what the model at its place says.
// A slice and a place in it stay two parameters, here and in the readers above: the models speak of `drop at s`, so a struct of both would say it no plainer.
#![tactic(auto)]

ghost use Rattle.std.specs.Prelude.{◌≡◌, ◌≤◌, length, drop};
ghost use Rattle.grammar.specs.Glue.{is_glue};
ghost use Rattle.grammar.specs.Name.{name_start, name_byte};
ghost use Rattle.scan.specs.Pieces.{Skipped, Got, GotTok, byte_p, word_p, glue_tok, name_tok, glued_p};

use grammar::Limits;

/// Why reading stopped: the input ended inside; or the first byte after which nothing fits.
#[derive(Clone, Copy)]
pub enum Stop {
    Open,
    Bad(usize),
}

/// The next place, or why there is none.
pub type Step = Result<usize, Stop>;

/// Space, tab, CR or LF.
pub fn is_glue(b: u8) -> bool
    ensures { result ≡ is_glue b }
{
    if b' ' < b {
        return false;
    }
    matches!(b, b' ' | b'\t' | b'\r' | b'\n')
}

/// Whether a name may start with b.
pub fn is_name_start(b: u8) -> bool
    ensures { result ≡ name_start b }
{
    b.is_ascii_alphabetic() || b == b'_'
}

/// Whether b may stand in a name behind its first byte.
pub fn is_name_byte(b: u8) -> bool
    ensures { result ≡ name_byte b }
{
    b.is_ascii_alphabetic() || matches!(b, b'_' | b'-'..=b'.' | b'0'..=b':')
}

/// Where the glue at `at` ends.
pub fn skip_glue(s: &[u8], at: usize) -> usize
    requires { at ≤ length s.now }
    ensures { Skipped s.now at result }
{
    let mut i = at;
    // Counted by hand: a `for` over the places takes more instructions a byte where blanks stand in a tag.
    while i < s.len() {
        if is_glue(s[i]) {
            i += 1;
        } else {
            return i;
        }
    }
    i
}

/// Glue, and a byte behind it that is none.
pub fn glue(s: &[u8], at: usize) -> Step
    requires { at ≤ length s.now }
    ensures { GotTok 0 s.now at result (glue_tok (drop at s.now)) }
{
    let i = skip_glue(s, at);
    if s.len() <= i {
        return Err(Stop::Open);
    }
    Ok(i)
}

/// The byte b.
pub fn byte(s: &[u8], at: usize, b: u8) -> Step
    requires { at ≤ length s.now }
    ensures { Got 1 s.now at result (byte_p b (drop at s.now)) }
{
    if s.len() <= at {
        return Err(Stop::Open);
    }
    if s[at] == b {
        return Ok(at + 1);
    }
    Err(Stop::Bad(at))
}

/// A name, as long as it can be.
pub fn name(s: &[u8], at: usize) -> Step
    requires { at ≤ length s.now }
    ensures { GotTok 1 s.now at result (name_tok (drop at s.now)) }
{
    if s.len() <= at {
        return Err(Stop::Open);
    }
    if !is_name_start(s[at]) {
        return Err(Stop::Bad(at));
    }
    for i in at + 1..s.len() {
        if !is_name_byte(s[i]) {
            return Ok(i);
        }
        if Limits::NAME <= i - at {
            return Ok(i);
        }
    }
    Err(Stop::Open)
}

/// The bytes of word.
pub fn literal(s: &[u8], at: usize, word: &[u8]) -> Step
    requires { at ≤ length s.now }
    ensures { Got (length word.now) s.now at result (word_p word.now (drop at s.now)) }
{
    let mut i = at;
    for &b in word {
        i = byte(s, i, b)?;
    }
    Ok(i)
}

/// Glue and the byte b.
pub fn glued(s: &[u8], at: usize, b: u8) -> Step
    requires { at ≤ length s.now }
    ensures { Got 1 s.now at result (glued_p b (drop at s.now)) }
{
    let i = glue(s, at)?;
    byte(s, i, b)
}
