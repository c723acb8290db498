// Which bytes are a text.
ghost use Rattle.std.specs.Prelude.{ℕ, ◌≤◌, ◌<◌, length, drop};
ghost use Rattle.model.specs.Characters.{char_p};
ghost use Rattle.pieces.specs.Says.{Says};
ghost use Rattle.spelling.specs.Characters.{TextSays, no_ban};
ghost use Rattle.spells.specs.Along.{Passes};

use pieces::values::eight_clear;
use pieces::{Character, Piece};
use scan::Stop;

// The character at `at`, and the next place.
fn character(s: &[u8], at: usize) -> Piece
    requires { at < length s.now }
    ensures { Says (λ (c : ℕ). c) 1 s.now at result (char_p no_ban (drop at s.now)) }
{
    let b = s[at];
    if 127 < b {
        return pieces::characters::character(s, at, b'<');
    }
    let c = b as usize;
    if pieces::references::is_char(c) {
        return Ok(Character {
            code_point: c,
            next: at + 1,
        });
    }
    Err(Stop::Bad(at))
}

// Where fewer than eight printable characters of ASCII stand in a row: one branch for eight bytes.
fn ascii_eights(v: &[u8], at: usize) -> usize
    requires { at ≤ length v.now }
    ensures { Passes v.now at result }
{
    let mut i = at;
    // Counted by hand: the answer is how far the steps of eight came, which a `for` over them does not hand out.
    while 8 <= v.len() - i {
        if !eight_clear(v, i, b'<') {
            return i;
        }
        i += 8;
    }
    i
}

/// Whether v is UTF-8 of the characters that may stand in a message.
pub fn is_text(v: &[u8]) -> bool
    ensures { TextSays v.now result }
{
    let mut i = 0;
    // By hand: the next place is what was read there.
    while i < v.len() {
        let j = ascii_eights(v, i);
        if v.len() <= j {
            return true;
        }
        let Ok(c) = character(v, j) else {
            return false;
        };
        i = c.next;
    }
    true
}
