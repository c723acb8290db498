// What reading hands out.

/// The four answers: a message from start to end; the beginning of one at start; none at start, as the byte at place
/// shows; one at start that is too long.
// An enum of its own, since these are document 01's four: a Result would rank the first above the others.
#[derive(Clone, Copy)]
pub enum Answer {
    Ends { start: usize, end: usize },
    More { start: usize },
    Malformed { start: usize, place: usize },
    TooLong { start: usize },
}

/// The answers without a message.
#[derive(Clone, Copy)]
pub enum Unread {
    More { start: usize },
    Malformed { start: usize, place: usize },
    TooLong { start: usize },
}

/// Of an element where its name stands, how many attributes it has, and the place behind its start tag, 0 if it is an empty tag.
// That it is no Option: `inside_from`, by which the theorems say where content stands, says 0 of an empty tag.
#[derive(Clone, Copy)]
pub struct Outline {
    pub from: usize,
    pub to: usize,
    pub count: usize,
    pub inside: usize,
}

/// A message from start to end, and its root's one child.
#[derive(Clone, Copy)]
pub struct Sketch {
    pub start: usize,
    pub end: usize,
    pub child: Outline,
}

/// The next child in a content, and the place behind it.
#[derive(Clone, Copy)]
pub struct Child {
    pub outline: Outline,
    pub next: usize,
}
