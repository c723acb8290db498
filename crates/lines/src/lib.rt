// The lines of a listing, and what a window of the input shows of them. Types and definitions only.
#![tactic(auto)]

/// What a window shows. Line: the line of its first message. Drop: no line before more of the input is read, and that many
/// bytes of glue in front are done with. End: the last line. Places count from the window's first byte.
#[derive(Clone, Copy)]
pub enum Listed {
    Line {
        start: usize,
        end: usize,
        kind: u8,
        refusal: u8,
    },
    Drop {
        glue: usize,
    },
    End {
        at: usize,
        answer: u8,
    },
}
