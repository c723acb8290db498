// Text: characters and references up to the next `<`. Behind two `]` in a row no `>` may stand.
ghost use Rattle.std.specs.Prelude.{◌≡◌, cond, suc, ◌≤◌, ◌<◌, length, get_or, eqb};
ghost use Rattle.grammar.specs.Filler.{stopper, below_root};
ghost use Rattle.fillers.specs.Fills.{Cleared, GotGap};

use pieces::runs::run;
use scan::{Step, Stop};

// What may not stand raw behind n `]` in a row.
fn stop(n: usize) -> u8
    ensures { result ≡ stopper n }
{
    if n < 2 { b'<' } else { b'>' }
}

// How many `]` stand in a row behind the byte at i, if n do before it.
fn row(s: &[u8], i: usize, n: usize) -> usize
    requires { (i < length s.now) × (n ≤ length s.now) }
    ensures { result ≡ cond (eqb 93 (get_or s.now i 0)) (suc n) 0 }
{
    if s[i] == b']' { n + 1 } else { 0 }
}

// Where the bytes end that stand for themselves and are no `]`; none are passed over behind a `]`.
fn clear(s: &[u8], at: usize, n: usize) -> usize
    requires { at ≤ length s.now }
    ensures { Cleared s.now at n result }
{
    if n == 0 { run(s, at, b']') } else { at }
}

/// The `<` behind text.
pub fn text(s: &[u8], at: usize) -> Step
    requires { at ≤ length s.now }
    ensures { GotGap below_root s.now at result }
{
    let mut i = at;
    let mut n = 0;
    // By hand: the next place is what was read there.
    while i < s.len() {
        let j = clear(s, i, n);
        if s.len() <= j {
            return Err(Stop::Open);
        }
        if s[j] == b'<' {
            return Ok(j);
        }
        let c = pieces::values::item(s, j, stop(n))?;
        n = row(s, j, n);
        i = c.next;
    }
    Err(Stop::Open)
}
