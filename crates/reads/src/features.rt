// A child element by its name, and the features in it. They are looked for before the attributes are tried, so that the stack of both is not needed at once.
ghost use Rattle.std.specs.Prelude.{◌≡◌, ◌≤◌, length};
ghost use Rattle.reads.specs.Children.{FirstIn};
ghost use Rattle.reads.specs.Kept.{NotesIn, Supports, Sorts};
ghost use Rattle.reads.specs.Whole.{OutlineIn, OutlineSorts};

use lane::Kind;
use reader::answer::{Sketch, Unread};
use rows::kind_named;
use rows::names::{
    FEATURE_BOARD_FORECAST, FEATURE_QUERY_BOARD_INFO, FEATURE_SEND_BOARD_INFO, SUPPORTED_FEATURES,
};

/// The first child of that name in the content behind a start tag, told by the place behind its own start tag; a place is 0 for an empty tag.
pub fn first_child(s: &[u8], inside: usize, name: &[u8]) -> Option<usize>
    ensures { FirstIn s.now inside name.now result }
{
    if inside == 0 {
        return None;
    }
    let mut at = inside;
    // By hand: the next place is what was read there.
    loop {
        let child = reader::child(s, at)?;
        let outline = child.outline;
        if name == &s[outline.from..outline.to] {
            return Some(outline.inside);
        }
        at = child.next;
    }
}

// Which features stand in the content behind a start tag.
fn noted(s: &[u8], inside: usize) -> u64
    ensures { NotesIn s.now inside result }
{
    let forecast = first_child(s, inside, FEATURE_BOARD_FORECAST);
    let query = first_child(s, inside, FEATURE_QUERY_BOARD_INFO);
    let send = first_child(s, inside, FEATURE_SEND_BOARD_INFO);
    forecast.is_some() as u64 + 2 * (query.is_some() as u64) + 4 * (send.is_some() as u64)
}

// The first child SupportedFeatures, and which features stand in it.
fn supported(s: &[u8], inside: usize) -> Option<u64>
    ensures { Supports s.now inside result }
{
    let child = first_child(s, inside, SUPPORTED_FEATURES)?;
    Some(noted(s, child))
}

/// An element's kind, and of one that has them its features.
#[derive(Clone, Copy)]
pub struct Sort {
    pub kind: u8,
    pub features: Option<u64>,
}

/// The kind of the element whose name stands from `from` to `to`, and its features; `inside` is the place behind its start tag, 0 of an empty tag.
pub fn sort_of(s: &[u8], from: usize, to: usize, inside: usize) -> Sort
    requires { (from ≤ to) × (to ≤ length s.now) }
    ensures { Sorts s.now from to inside result }
{
    let kind = kind_named(&s[from..to]);
    if kind == Kind::SERVICE_DESCRIPTION {
        let features = supported(s, inside);
        return Sort { kind, features };
    }
    Sort {
        kind,
        features: None,
    }
}

/// The kind of the child of the message that an outline found in s, and its features; without a message kind 0.
pub fn sort_outlined(s: &[u8], outline: Result<Sketch, Unread>) -> Sort
    requires { OutlineIn s.now outline }
    ensures { OutlineSorts s.now outline result }
{
    match outline {
        Ok(o) => sort_of(s, o.child.from, o.child.to, o.child.inside),
        Err(_) => Sort {
            kind: 0,
            features: None,
        },
    }
}
