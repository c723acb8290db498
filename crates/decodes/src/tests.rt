// What the bytes of a value have, and what they have not.
ghost use Rattle.std.specs.Prelude.{◌≡◌, ◌||◌};
ghost use Rattle.value.specs.Text.{altered, as_read};
ghost use Rattle.value.specs.Quotes.{lacks};
ghost use Rattle.decodes.specs.Plain.{plain_char, plain};

// Whether b reads as another byte than it is, or begins a reference.
fn is_altered(b: u8) -> bool
    ensures { result ≡ altered b }
{
    matches!(b, b'&' | b'\t' | b'\n' | b'\r')
}

/// Whether w stands exactly as it reads.
pub fn is_as_read(w: &[u8]) -> bool
    ensures { result ≡ as_read w.now }
{
    w.iter().all(|b| !is_altered(*b))
}

// Whether b is a character that may stand in every value, and reads as itself.
fn is_plain_char(b: u8) -> bool
    ensures { result ≡ plain_char b }
{
    matches!(b, b' '..=b'%' | b'\''..=b';' | b'='..=0x7F)
}

/// Whether w is plain: a value that stands exactly as it reads.
pub fn is_plain(w: &[u8]) -> bool
    ensures { result ≡ plain w.now }
{
    w.iter().all(|b| is_plain_char(*b))
}

// Whether no byte of w is q.
fn has_none(w: &[u8], q: u8) -> bool
    ensures { result ≡ lacks q w.now }
{
    w.iter().all(|b| *b != q)
}

/// Whether w has not both kinds of quotes.
pub fn is_quotable(w: &[u8]) -> bool
    ensures { result ≡ lacks 34 w.now || lacks 39 w.now }
{
    has_none(w, b'"') || has_none(w, b'\'')
}
