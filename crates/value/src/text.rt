// A text of a message: where its raw value stands, and where the text is.

/// A place in the message bytes.
#[derive(Clone, Copy)]
pub struct Span {
    pub start: usize,
    pub len: usize,
}

/// Where a text is: there in the message bytes; the first bytes of the scratch, so many; or refused.
#[derive(Clone, Copy)]
pub enum TextAt {
    InMessage(Span),
    InScratch(usize),
    No(u8),
}
