// The limits that document 01 sets, for code. Which byte strings are messages stands in specs/.
#![tactic(auto)]

ghost use Rattle.std.specs.Prelude.{◌≡◌};
ghost use Rattle.grammar.specs.Limits.{MESSAGE, NAME, ATTRIBUTES, DEPTH};

#[derive(Clone, Copy)]
pub struct Limits {}

impl Limits {
    pub const MESSAGE: usize = 65536;

    pub const NAME: usize = 64;

    pub const ATTRIBUTES: usize = 32;

    pub const DEPTH: usize = 6;

    // The size of the longest message.
    pub fn message() -> usize
        ensures { result ≡ MESSAGE }
    {
        Limits::MESSAGE
    }

    // The length of the longest name.
    pub fn name() -> usize
        ensures { result ≡ NAME }
    {
        Limits::NAME
    }

    // How many attributes an element may have.
    pub fn attributes() -> usize
        ensures { result ≡ ATTRIBUTES }
    {
        Limits::ATTRIBUTES
    }

    // How many elements may be open at once.
    pub fn depth() -> usize
        ensures { result ≡ DEPTH }
    {
        Limits::DEPTH
    }
}
