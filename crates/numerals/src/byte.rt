// Classes of bytes, and what a digit counts.
ghost use Rattle.std.specs.Prelude.{◌≡◌};
ghost use Rattle.number.specs.Bytes.{blank, digit, figure};

pub fn is_blank(b: u8) -> bool
    ensures { result ≡ blank b }
{
    matches!(b, b'\t' | b'\n' | b'\r' | b' ')
}

pub fn is_digit(b: u8) -> bool
    ensures { result ≡ digit b }
{
    b.is_ascii_digit()
}

/// What a digit counts.
pub fn figure_of(b: u8) -> u8
    ensures { result ≡ figure b }
{
    b.saturating_sub(b'0')
}
