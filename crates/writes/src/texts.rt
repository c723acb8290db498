// The texts of a message: parts of one byte string, and why each may not be sent.
ghost use Rattle.std.specs.Prelude.{◌≡◌};
ghost use Rattle.table.specs.Table.{words, some_words, version};
ghost use Rattle.table.specs.Says.{refusal_in};
ghost use Rattle.refusals.specs.Numbers.{told};
ghost use Rattle.meant.specs.Meant.{sendable as canBeSent, text_at, text_meant};

use refusals::Refusal;
use value::Span;

/// The part of the texts at p; what lies outside of them is cut off.
pub fn part<'a>(texts: &'a [u8], p: Span) -> &'a [u8]
    ensures { result.now ≡ text_at texts.now p }
{
    let start = p.start;
    let len = p.len;
    if texts.len() < start {
        return &texts[..0];
    }
    if texts.len() - start < len {
        return &texts[start..];
    }
    &texts[start..start + len]
}

// Whether p lies in the texts, and is a text there.
fn is_sendable(texts: &[u8], p: Span) -> bool
    ensures { result ≡ canBeSent texts.now p }
{
    let start = p.start;
    let len = p.len;
    if texts.len() < start {
        return false;
    }
    if texts.len() - start < len {
        return false;
    }
    spells::is_text(&texts[start..start + len])
}

/// A text of at most so many bytes.
pub fn text(texts: &[u8], p: Span, most: u16) -> Result<(), Refusal>
    ensures { told result ≡ refusal_in (text_meant (words most) texts.now p) }
{
    if (most as usize) < p.len {
        return Err(Refusal::TextTooLong);
    }
    if is_sendable(texts, p) {
        return Ok(());
    }
    Err(Refusal::BadValue)
}

/// A text of at least one and at most so many bytes.
pub fn some_text(texts: &[u8], p: Span, most: u16) -> Result<(), Refusal>
    ensures { told result ≡ refusal_in (text_meant (some_words most) texts.now p) }
{
    if (most as usize) < p.len {
        return Err(Refusal::TextTooLong);
    }
    if p.len == 0 {
        return Err(Refusal::BadValue);
    }
    if is_sendable(texts, p) {
        return Ok(());
    }
    Err(Refusal::BadValue)
}

/// A Version.
pub fn a_version(texts: &[u8], p: Span) -> Result<(), Refusal>
    ensures { told result ≡ refusal_in (text_meant version texts.now p) }
{
    if is_sendable(texts, p) && shapes::is_version(part(texts, p)) {
        return Ok(());
    }
    Err(Refusal::BadValue)
}
