// What stands in a value: characters and references, up to the quote that ends it.
// Each function says what the model at its place says.
#![tactic(auto)]

use scan::Stop;

pub mod characters;
pub mod references;
pub mod runs;
pub mod values;

/// What a reference or a character names, and the next place.
#[derive(Clone, Copy)]
pub struct Character {
    pub code_point: usize,
    pub next: usize,
}

/// One reference or character, or why there is none.
pub type Piece = Result<Character, Stop>;
