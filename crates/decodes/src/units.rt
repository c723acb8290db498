// One character of a value as it reads: references are read, a raw tab, LF, CR or CR LF is a space.
ghost use Rattle.std.specs.Prelude.{◌≡◌, ◌<◌, length, get_or};
ghost use Rattle.decodes.specs.Units.{UnitSays};
ghost use Rattle.decodes.specs.Walk.{Taken};

use pieces::Character;

// The place behind the CR at `at`, and behind an LF that follows it.
fn line_end(s: &[u8], at: usize) -> usize
    requires { (at < length s.now) × (get_or s.now at 0 ≡ 13) }
    ensures { Taken s.now at 32 result }
{
    let next = at + 1;
    if s.len() <= next {
        return next;
    }
    if s[next] == b'\n' {
        return next + 1;
    }
    next
}

/// The character at `at` and the next place, if items stand there.
pub fn unit(s: &[u8], at: usize) -> Option<Character>
    requires { at < length s.now }
    ensures { UnitSays s.now at result }
{
    match s[at] {
        b'\r' => Some(Character {
            code_point: 32,
            next: line_end(s, at),
        }),
        b'\t' | b'\n' => Some(Character {
            code_point: 32,
            next: at + 1,
        }),
        _ => pieces::values::item(s, at, b'<').ok(),
    }
}
