// What stands between elements: glue, comments, and below the root text. Where there is neither text nor comment, glue is passed
// over and two bytes are looked at.
#![tactic(auto)]

ghost use Rattle.std.specs.Prelude.{◌≡◌, true, ◌≤◌, length};
ghost use Rattle.fillers.specs.Fills.{site_of, GotGap, TagAt, GotFiller};

use scan::{Step, Stop};

pub mod comments;
pub mod texts;

// The next `<`, behind glue, or below the root behind text.
fn gap(s: &[u8], at: usize, below: bool) -> Step
    requires { at ≤ length s.now }
    ensures { GotGap (site_of below) s.now at result }
{
    let j = scan::skip_glue(s, at);
    if s.len() <= j {
        return Err(Stop::Open);
    }
    if s[j] == b'<' {
        return Ok(j);
    }
    if below {
        return texts::text(s, j);
    }
    Err(Stop::Bad(j))
}

/// The same bit by bit, for where it is rarely read: the whole of it stands here once, and `filler_lt` is small where it is used.
pub fn bits(s: &[u8], at: usize, below: bool) -> Step
    requires { at ≤ length s.now }
    ensures { GotFiller (site_of below) s.now at result }
{
    let mut i = at;
    // By hand: the next place is what was read there.
    loop {
        let j = gap(s, i, below)?;
        if s.len() - j < 2 {
            return Err(Stop::Open);
        }
        if s[j + 1] != b'!' {
            return Ok(j + 1);
        }
        i = comments::comment(s, j + 2)?;
    }
}

// Whether a `<` stands at j that begins no comment.
fn is_tag(s: &[u8], j: usize) -> bool
    requires { j ≤ length s.now }
    ensures { result ≡ true → TagAt s.now j }
{
    2 <= s.len() - j && s[j] == b'<' && s[j + 1] != b'!'
}

/// What may stand between elements, and the `<` behind it; `below`: in an element below the root. Mostly it is glue alone.
pub fn filler_lt(s: &[u8], at: usize, below: bool) -> Step
    requires { at ≤ length s.now }
    ensures { GotFiller (site_of below) s.now at result }
{
    let j = scan::skip_glue(s, at);
    if is_tag(s, j) {
        return Ok(j + 1);
    }
    bits(s, at, below)
}
