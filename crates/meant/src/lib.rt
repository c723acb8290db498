// What a message to be sent means, why it may be refused, and the bytes that are written for it; what is written back; what the chart looks at in a message.
// Types and definitions only.
#![tactic(auto)]

/// The refusal, and how many bytes were written.
#[derive(Clone, Copy)]
pub struct Written {
    pub refusal: u8,
    pub count: usize,
}
