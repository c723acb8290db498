// What stands around a name in a tag.
ghost use Rattle.grammar.specs.Bytes.{text};
ghost use Rattle.printing.specs.Put.{Countable, Wrote};
ghost use Rattle.writes.specs.Rows.{start_tag, end_tag};

use printing::{put, put_byte};

/// What starts a tag.
pub fn put_start(out: &mut [u8], at: usize, name: &[u8]) -> usize
    requires { Countable at (start_tag name.now) }
    ensures { Wrote out.old at (start_tag name.now) out.new result }
{
    let a = put_byte(out, at, b'<');
    put(out, a, name)
}

/// What stands between a name and its value. Two bytes put apart cost less than a copy.
pub fn put_given(out: &mut [u8], at: usize) -> usize
    requires { Countable at (text "=\"") }
    ensures { Wrote out.old at (text "=\"") out.new result }
{
    let a = put_byte(out, at, b'=');
    put_byte(out, a, b'"')
}

/// What ends an empty tag.
pub fn put_empty(out: &mut [u8], at: usize) -> usize
    requires { Countable at (text "/>") }
    ensures { Wrote out.old at (text "/>") out.new result }
{
    put(out, at, b"/>")
}

/// An end tag.
pub fn put_end(out: &mut [u8], at: usize, name: &[u8]) -> usize
    requires { Countable at (end_tag name.now) }
    ensures { Wrote out.old at (end_tag name.now) out.new result }
{
    let a = put(out, at, b"</");
    let b = put(out, a, name);
    put_byte(out, b, b'>')
}
