// What a BoardAvailable and a BoardForecast say of the board, behind its id and who gave it.
ghost use Rattle.std.specs.Prelude.{◌≡◌, ◌≤◌};
ghost use Rattle.structs.specs.BoardPart.{part_at, part_fields};
ghost use Rattle.structs.specs.Celled.{all_laid};

use crate::laying::put;
use crate::making::at;
use message::cells::NUMBERS;
use message::values::Decimal;
use value::Span;

/// A board's attributes, in table order.
#[derive(Clone, Copy)]
pub struct Board {
    pub failed: Option<u64>,
    pub product: Option<Span>,
    pub flipped: Option<u64>,
    pub top: Option<Span>,
    pub bottom: Option<Span>,
    pub length: Option<Decimal>,
    pub width: Option<Decimal>,
    pub thickness: Option<Decimal>,
    pub speed: Option<Decimal>,
    pub above: Option<Decimal>,
    pub below: Option<Decimal>,
    pub weight: Option<Decimal>,
    pub order: Option<Span>,
}

/// What the cells from the i-th on say of the board.
pub fn board_at(cells: [u64; NUMBERS], i: usize) -> Board
    requires { i ≤ 11 }
    ensures { result ≡ part_at cells i }
{
    Board {
        failed: at(cells, i),
        product: at(cells, i + 1),
        flipped: at(cells, i + 2),
        top: at(cells, i + 3),
        bottom: at(cells, i + 4),
        length: at(cells, i + 5),
        width: at(cells, i + 6),
        thickness: at(cells, i + 7),
        speed: at(cells, i + 8),
        above: at(cells, i + 9),
        below: at(cells, i + 10),
        weight: at(cells, i + 11),
        order: at(cells, i + 12),
    }
}

/// The board's attributes laid into the cells from the i-th on.
pub fn put_board(cells: [u64; NUMBERS], i: usize, b: Board) -> [u64; NUMBERS]
    requires { i ≤ 11 }
    ensures { result ≡ all_laid i (part_fields b) cells }
{
    let failed = b.failed;
    let product = b.product;
    let flipped = b.flipped;
    let top = b.top;
    let bottom = b.bottom;
    let length = b.length;
    let width = b.width;
    let thickness = b.thickness;
    let speed = b.speed;
    let above = b.above;
    let below = b.below;
    let weight = b.weight;
    let order = b.order;
    let cells = put(cells, i, failed);
    let cells = put(cells, i + 1, product);
    let cells = put(cells, i + 2, flipped);
    let cells = put(cells, i + 3, top);
    let cells = put(cells, i + 4, bottom);
    let cells = put(cells, i + 5, length);
    let cells = put(cells, i + 6, width);
    let cells = put(cells, i + 7, thickness);
    let cells = put(cells, i + 8, speed);
    let cells = put(cells, i + 9, above);
    let cells = put(cells, i + 10, below);
    let cells = put(cells, i + 11, weight);
    put(cells, i + 12, order)
}
