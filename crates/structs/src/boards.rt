// BoardAvailable: its struct, made of a message and laid into one.
ghost use Rattle.std.specs.Prelude.{◌≡◌};
ghost use Rattle.lane.specs.Names as kinds;
ghost use Rattle.message.specs.Messages.{message_from};
ghost use Rattle.structs.specs.Boards.{board_in, board_fields};

use crate::board_part::{Board, board_at, put_board};
use crate::laying::{bytes_in, put, put_id};
use crate::making::{at, cells_if, id_at};
use lane::Kind;
use message::Message;
use message::cells::NUMBERS;
use value::Span;

/// The attributes of a BoardAvailable, in table order.
#[derive(Clone, Copy)]
pub struct BoardAvailable {
    pub id: Option<[u8; 36]>,
    pub by: Option<Span>,
    pub board: Board,
    pub route: Option<u64>,
    pub batch: Option<Span>,
}

/// What a BoardAvailable says; of a message of another kind all is absent.
pub fn board_available(m: Message) -> BoardAvailable
    ensures { result ≡ board_in m }
{
    let kind = m.kind;
    let id = m.id;
    let cells = cells_if(kind == Kind::BOARD_AVAILABLE, m);
    BoardAvailable {
        id: id_at(cells, 0, id),
        by: at(cells, 1),
        board: board_at(cells, 2),
        route: at(cells, 15),
        batch: at(cells, 16),
    }
}

/// The message that says it.
pub fn of_board_available(v: BoardAvailable) -> Message
    ensures { result ≡ message_from kinds.BoardAvailable (board_fields v) }
{
    let id = v.id;
    let by = v.by;
    let board = v.board;
    let route = v.route;
    let batch = v.batch;
    let cells = put_id([0u64; NUMBERS], 0, id);
    let cells = put(cells, 1, by);
    let cells = put_board(cells, 2, board);
    let cells = put(cells, 15, route);
    let cells = put(cells, 16, batch);
    Message {
        kind: Kind::BOARD_AVAILABLE,
        cells: cells,
        id: bytes_in(id),
    }
}
