// Runs of plain bytes, eight at a turn: what stands in values, comments and texts is mostly that.
ghost use Rattle.std.specs.Prelude.{◌≤◌, length};
ghost use Rattle.pieces.specs.Parts.{PlainRun};

use crate::characters::is_plain;
use crate::values::eight_clear;

/// Where fewer than eight plain bytes stand in a row: one branch for eight bytes.
pub fn eights(s: &[u8], at: usize, q: u8) -> usize
    requires { at ≤ length s.now }
    ensures { PlainRun q s.now at result }
{
    // Counted by hand: the answer is how far the steps of eight came, which a `for` over them does not hand out.
    let mut i = at;
    while 8 <= s.len() - i {
        if !eight_clear(s, i, q) {
            return i;
        }
        i += 8;
    }
    i
}

/// Where the bytes end that stand for themselves in quotes q.
pub fn run(s: &[u8], at: usize, q: u8) -> usize
    requires { at ≤ length s.now }
    ensures { PlainRun q s.now at result }
{
    for i in eights(s, at, q)..s.len() {
        if !is_plain(s[i], q) {
            return i;
        }
    }
    s.len()
}
