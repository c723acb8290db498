// The root with its one child, and whole messages: the child, and where reading ended. Only the child's tag has a table, if one is lent.
ghost use Rattle.std.specs.Prelude.{◌≤◌, length, drop};
ghost use Rattle.model.specs.Elements.{elem_p, content_p};
ghost use Rattle.model.specs.Messages.{root_p, layout_p};
ghost use Rattle.grammar.specs.Places.{inner_of, root_lead, child_of, lead};
ghost use Rattle.reader.specs.Message.{none, itself, GotInner, GotInside, declared_p, declared_lead};

use crate::answer::{Child, Outline};
use crate::{declaration, elements};
use grammar::Limits;
use scan::Stop;

// The name of the root.
const HERMES: [u8; 6] = *b"Hermes";

/// An element, behind its `<`, in which `left` more may be open. A table that is lent for its attributes has their places.
pub fn child_at(s: &[u8], at: usize, left: usize, table: &mut [u16]) -> Result<Child, Stop>
    requires { at ≤ length s.now }
    ensures { GotInner itself none s.now at table.old table.new result (elem_p (content_p left) (drop at s.now)) }
{
    let t = elements::start_tag(s, at, &mut *table)?;
    if t.tag.empty {
        return Ok(Child {
            outline: Outline {
                from: at,
                to: t.to,
                count: t.tag.count,
                inside: 0,
            },
            next: t.tag.end,
        });
    }
    let next = elements::content(s, t.tag.end, left, &s[at..t.to])?;
    Ok(Child {
        outline: Outline {
            from: at,
            to: t.to,
            count: t.tag.count,
            inside: t.tag.end,
        },
        next,
    })
}

/// Behind the `<` of the root's child: the child, filler, and the end tag of this name.
pub fn inside(s: &[u8], at: usize, name: &[u8], table: &mut [u16]) -> Result<Child, Stop>
    requires { at ≤ length s.now }
    ensures { GotInside name.now s.now at table.old table.new result }
{
    let child = child_at(s, at, Limits::DEPTH - 2, &mut *table)?;
    let i = fillers::filler_lt(s, child.next, false)?;
    let next = elements::end_tag(s, i, name)?;
    Ok(Child { next, ..child })
}

/// The root, behind its `<`.
pub fn root(s: &[u8], at: usize, table: &mut [u16]) -> Result<Child, Stop>
    requires { at ≤ length s.now }
    ensures { GotInner inner_of root_lead s.now at table.old table.new result (root_p (drop at s.now)) }
{
    let a = scan::literal(s, at, &HERMES)?;
    let mut none = [0u16; 0];
    let tag = tags::attributes::head(s, a, false, &mut none)?;
    let i = fillers::filler_lt(s, tag.end, false)?;
    inside(s, i, &HERMES, &mut *table)
}

/// Behind `<?`: a declaration, filler, and the root.
pub fn declared(s: &[u8], at: usize, table: &mut [u16]) -> Result<Child, Stop>
    requires { at ≤ length s.now }
    ensures { GotInner child_of declared_lead s.now at table.old table.new result (declared_p (drop at s.now)) }
{
    let a = declaration::declaration(s, at)?;
    let b = fillers::bits(s, a, false)?;
    root(s, b, &mut *table)
}

/// A message.
pub fn message(s: &[u8], at: usize, table: &mut [u16]) -> Result<Child, Stop>
    requires { at ≤ length s.now }
    ensures { GotInner child_of lead s.now at table.old table.new result (layout_p (drop at s.now)) }
{
    let a = scan::byte(s, at, b'<')?;
    if s.len() <= a {
        return Err(Stop::Open);
    }
    if s[a] == b'?' {
        return declared(s, a + 1, &mut *table);
    }
    root(s, a, &mut *table)
}
