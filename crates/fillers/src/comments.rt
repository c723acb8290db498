// Comments: `<!--`, marks, `-->`. A mark is a character that is no `-`, or a `-` and such a character.
ghost use Rattle.std.specs.Prelude.{ℕ, ◌≤◌, ◌<◌, length, drop};
ghost use Rattle.model.specs.Comments.{no_dash_p, marks_p, comment_p};
ghost use Rattle.scan.specs.Pieces.{Got};
ghost use Rattle.pieces.specs.Says.{Says};
ghost use Rattle.fillers.specs.Fills.{PastDash};

use pieces::runs::run;
use pieces::{Character, Piece};
use scan::{Step, Stop};

// A character that is no `-`.
fn character(s: &[u8], at: usize) -> Piece
    ensures { Says (λ (c : ℕ). c) 1 s.now at result (no_dash_p (drop at s.now)) }
{
    if s.len() <= at {
        return Err(Stop::Open);
    }
    let b = s[at];
    match b {
        b'<' | b'&' => Ok(Character {
            code_point: usize::from(b),
            next: at + 1,
        }),
        _ => pieces::characters::character(s, at, b'-'),
    }
}

// The place behind a `-` that stands at i, else i.
fn past_dash(s: &[u8], i: usize) -> usize
    requires { i < length s.now }
    ensures { PastDash s.now i result }
{
    if s[i] == b'-' { i + 1 } else { i }
}

// The marks of a comment, and `-->`.
fn marks(s: &[u8], at: usize) -> Step
    requires { at ≤ length s.now }
    ensures { Got 1 s.now at result (marks_p (drop at s.now)) }
{
    let mut i = at;
    // By hand: the next place is what was read there.
    while i < s.len() {
        let j = run(s, i, b'-');
        if s.len() <= j {
            return Err(Stop::Open);
        }
        let k = past_dash(s, j);
        if s.len() <= k {
            return Err(Stop::Open);
        }
        if s[k] == b'-' {
            return scan::byte(s, k + 1, b'>');
        }
        let c = character(s, k)?;
        i = c.next;
    }
    Err(Stop::Open)
}

/// A comment, behind its `<!`.
pub fn comment(s: &[u8], at: usize) -> Step
    requires { at ≤ length s.now }
    ensures { Got 1 s.now at result (comment_p (drop at s.now)) }
{
    let i = scan::literal(s, at, b"--")?;
    marks(s, i)
}
