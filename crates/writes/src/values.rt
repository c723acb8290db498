// What a message to be sent says.

/// The cells of a message, its BoardId, and the texts that its cells have parts of.
#[derive(Clone, Copy)]
pub struct Values<'a> {
    pub cells: &'a [u64],
    pub id: &'a [u8],
    pub texts: &'a [u8],
}
