// The attributes of an element, whose places a table holds.
ghost use Rattle.reads.specs.Held.{Held};

use value::Span;

/// The attributes of an element of a message. The table has four places for each, counted from `base`: from where to where its name stands, and its raw
/// value.
#[derive(Clone, Copy)]
pub struct Attributes<'a> {
    pub message: &'a [u8],
    pub base: usize,
    pub table: &'a [u16],
    pub count: usize,
    ghost held: { ∥ Held message.now base table.now count ∥₁ },
}

impl<'a> Attributes<'a> {
    ghost use Rattle.std.specs.Prelude.{◌<◌};
    ghost use Rattle.reads.specs.Attributes.{CalledIn, LiesIn, FoundIn};

    // Whether the attribute i has that name.
    #[tactic(auto, using(crate::proofs::FindLaws::long_enough, crate::proofs::FindLaws::named_in, crate::proofs::FindLaws::ends_in))]
    fn is_named(&self, i: usize, name: &[u8]) -> bool
        requires { i < self.now.count }
        ensures { CalledIn self.now i name.now result }
    {
        let from = self.base + self.table[4 * i] as usize;
        let to = self.base + self.table[4 * i + 1] as usize;
        name == &self.message[from..to]
    }

    // Where the raw value of the attribute i stands.
    #[tactic(auto, using(crate::proofs::FindLaws::long_enough, crate::proofs::FindLaws::value_order, crate::proofs::FindLaws::value_in))]
    fn value(&self, i: usize) -> Option<Span>
        requires { i < self.now.count }
        ensures { LiesIn self.now i result }
    {
        let start = self.base + self.table[4 * i + 2] as usize;
        let end = self.base + self.table[4 * i + 3] as usize;
        Some(Span {
            start,
            len: end - start,
        })
    }

    // The same as find, from the first attribute on.
    fn search(&self, name: &[u8]) -> Option<Span>
        ensures { FoundIn self.now name.now result }
    {
        for i in 0..self.count {
            if self.is_named(i, name) {
                return self.value(i);
            }
        }
        None
    }

    /// Where the raw value of the attribute of that name stands. The attribute `guess` is looked at first: most tags have their attributes in the order of
    /// the rows.
    pub fn find(&self, guess: usize, name: &[u8]) -> Option<Span>
        ensures { FoundIn self.now name.now result }
    {
        if guess < self.count && self.is_named(guess, name) {
            return self.value(guess);
        }
        self.search(name)
    }
}
