// What a cell holds: a value told by three numbers.
ghost use Rattle.std.specs.Prelude.{◌≡◌, ◌≤◌};
ghost use Rattle.message.specs.Cells.{bit as bit_of, flag as flag_of, words_by, whole_by, measure_by, features_by, cell_of};
ghost use Rattle.message.specs.Fields.{Field, a_words, a_whole, a_measure, a_features};
ghost use Rattle.structs.specs.Celled.{numbers};
ghost use Rattle.structs.specs.declared.celled.Cell.{Cell};
ghost use Rattle.structs.specs.Held.{words_held, whole_held, measure_held, features_held};

use message::values::{Decimal, Features};
use value::Span;

/// The three numbers of a cell. The first is 0 if the value is absent.
#[derive(Clone, Copy)]
pub struct Cell {
    pub there: u64,
    pub a: u64,
    pub b: u64,
}

impl Cell {
    pub const ABSENT: Cell = Cell {
        there: 0,
        a: 0,
        b: 0,
    };
}

/// A value that a cell holds.
pub trait Celled: Sized {
    ghost of: { Cell → Self };

    ghost field: { Self → Field };

    fn of_cell(c: Cell) -> Self
        ensures { result ≡ of c };

    fn cell(self) -> Cell
        ensures { numbers result ≡ cell_of (field self) };

    // What is laid into a cell is what the cell holds.
    ghost held: { (v : Self) (c : Cell) → numbers c ≡ cell_of (field v) → of c ≡ v };
}

impl Celled for Option<Span> {
    ghost of = { λ c. words_by c.there c.a c.b };

    ghost field = { a_words };

    ghost held = { words_held };

    #[tactic(auto, unfolding(message::specs::Cells::words_by))]
    fn of_cell(c: Cell) -> Option<Span> {
        if c.there == 0 {
            return None;
        }
        Some(Span {
            start: c.a as usize,
            len: c.b as usize,
        })
    }

    fn cell(self) -> Cell {
        match self {
            None => Cell::ABSENT,
            Some(p) => Cell {
                there: 1,
                a: p.start as u64,
                b: p.len as u64,
            },
        }
    }
}

impl Celled for Option<u64> {
    ghost of = { λ c. whole_by c.there c.a };

    ghost field = { a_whole };

    ghost held = { whole_held };

    #[tactic(auto, unfolding(message::specs::Cells::whole_by))]
    fn of_cell(c: Cell) -> Option<u64> {
        if c.there == 0 {
            return None;
        }
        Some(c.a)
    }

    fn cell(self) -> Cell {
        match self {
            None => Cell::ABSENT,
            Some(n) => Cell {
                there: 1,
                a: n,
                b: 0,
            },
        }
    }
}

impl Celled for Option<Decimal> {
    ghost of = { λ c. measure_by c.there c.a c.b };

    ghost field = { a_measure };

    ghost held = { measure_held };

    #[tactic(auto, unfolding(message::specs::Cells::measure_by))]
    fn of_cell(c: Cell) -> Option<Decimal> {
        if c.there == 0 {
            return None;
        }
        Some(Decimal {
            millionths: c.a,
            decimals: c.b,
        })
    }

    fn cell(self) -> Cell {
        match self {
            None => Cell::ABSENT,
            Some(d) => Cell {
                there: 1,
                a: d.millionths,
                b: d.decimals,
            },
        }
    }
}

fn bit(n: u64) -> bool
    ensures { result ≡ bit_of n }
{
    n % 2 != 0
}

fn flag(b: bool) -> u64
    ensures { (result ≡ flag_of b) × (result ≤ 1) }
{
    u64::from(b)
}

impl Celled for Option<Features> {
    ghost of = { λ c. features_by c.there c.a };

    ghost field = { a_features };

    ghost held = { features_held };

    #[tactic(auto, unfolding(message::specs::Cells::features_by))]
    fn of_cell(c: Cell) -> Option<Features> {
        if c.there == 0 {
            return None;
        }
        Some(Features {
            forecast: bit(c.a),
            query: bit(c.a / 2),
            send: bit(c.a / 4),
        })
    }

    fn cell(self) -> Cell {
        match self {
            None => Cell::ABSENT,
            Some(f) => {
                let forecast = flag(f.forecast);
                let query = flag(f.query);
                let send = flag(f.send);
                Cell {
                    there: 1,
                    a: forecast + (2 * query + 4 * send),
                    b: 0,
                }
            }
        }
    }
}
