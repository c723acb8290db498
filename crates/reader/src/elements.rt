// Elements and content, which call each other: content loops over siblings, so the calls nest no deeper than elements do.
// Each call leaves fewer bytes than the one it is made from.
ghost use Rattle.std.specs.Prelude.{◌≤◌, length, drop};
ghost use Rattle.model.specs.Elements.{elem_p, content_p};
ghost use Rattle.scan.specs.Pieces.{Got, end_tag_p};
ghost use Rattle.reader.specs.Elements.{GotStart};

use scan::{Step, Stop};
use tags::attributes::Tag;

/// Behind `<`: the end tag of this name.
pub fn end_tag(s: &[u8], at: usize, name: &[u8]) -> Step
    requires { at ≤ length s.now }
    ensures { Got 1 s.now at result (end_tag_p name.now (drop at s.now)) }
{
    let i = scan::byte(s, at, b'/')?;
    let j = scan::literal(s, i, name)?;
    scan::glued(s, j, b'>')
}

/// A start tag or an empty tag: where its name ends, and what stands behind that.
#[derive(Clone, Copy)]
pub struct Start {
    pub to: usize,
    pub tag: Tag,
}

/// A start tag or an empty tag, behind its `<`. A table that is lent for its attributes has their places.
pub fn start_tag(s: &[u8], at: usize, table: &mut [u16]) -> Result<Start, Stop>
    requires { at ≤ length s.now }
    ensures { GotStart s.now at table.old table.new result }
{
    let to = scan::name(s, at)?;
    let tag = tags::attributes::head(s, to, true, &mut *table)?;
    Ok(Start { to, tag })
}

/// An element, behind its `<`, in which `left` more may be open.
#[cycle(content_element)]
pub fn element(s: &[u8], at: usize, left: usize) -> Step
    requires { at ≤ length s.now }
    ensures { Got 1 s.now at result (elem_p (content_p left) (drop at s.now)) }
{
    let mut none = [0u16; 0];
    let t = start_tag(s, at, &mut none)?;
    if t.tag.empty {
        return Ok(t.tag.end);
    }
    content(s, t.tag.end, left, &s[at..t.to])
}

/// Elements with filler around them, and the end tag of this name.
#[cycle(content_element)]
pub fn content(s: &[u8], at: usize, left: usize, name: &[u8]) -> Step
    requires { at ≤ length s.now }
    ensures { Got 1 s.now at result (content_p left name.now (drop at s.now)) }
{
    let mut i = at;
    // By hand: the next place is what was read there.
    loop {
        let j = fillers::filler_lt(s, i, true)?;
        if s.len() <= j {
            return Err(Stop::Open);
        }
        if s[j] == b'/' {
            return end_tag(s, j, name);
        }
        if left == 0 {
            return Err(Stop::Bad(j));
        }
        i = element(s, j, left - 1)?;
    }
}
