// Blanks at the ends of numbers, as bytes come one by one.
ghost use Rattle.std.specs.Prelude.{◌≡◌};
ghost use Rattle.numerals.specs.Scan.{ends_step, inside, broken};

use crate::byte::is_blank;

/// Where a scan stands towards the blanks at the ends. Broken: a blank stood inside.
#[derive(Clone, Copy, PartialEq, Eq)]
pub enum Ends {
    Front,
    Inside,
    Behind,
    Broken,
}

impl Ends {
    #[tactic(auto, unfolding(crate::specs::Scan::ends_step))]
    pub fn step(self, b: u8) -> Ends
        ensures { result ≡ ends_step self b }
    {
        match (self, is_blank(b)) {
            (Ends::Front, true) => Ends::Front,
            (Ends::Front | Ends::Inside, false) => Ends::Inside,
            (Ends::Inside | Ends::Behind, true) => Ends::Behind,
            (Ends::Behind, false) | (Ends::Broken, _) => Ends::Broken,
        }
    }

    #[tactic(auto, unfolding(crate::specs::Scan::inside))]
    pub fn is_inside(self) -> bool
        ensures { result ≡ inside self }
    {
        matches!(self, Ends::Inside)
    }

    #[tactic(auto, unfolding(crate::specs::Scan::broken))]
    pub fn is_broken(self) -> bool
        ensures { result ≡ broken self }
    {
        matches!(self, Ends::Broken)
    }
}
