// BoardForecast: its struct, made of a message and laid into one.
ghost use Rattle.std.specs.Prelude.{◌≡◌};
ghost use Rattle.lane.specs.Names as kinds;
ghost use Rattle.message.specs.Messages.{message_from};
ghost use Rattle.structs.specs.Forecasts.{forecast_in, forecast_fields};

use crate::board_part::{Board, board_at, put_board};
use crate::laying::{bytes_in, put, put_id};
use crate::making::{at, cells_if, id_at};
use lane::Kind;
use message::Message;
use message::cells::NUMBERS;
use message::values::Decimal;
use value::Span;

/// The attributes of a BoardForecast, in table order.
#[derive(Clone, Copy)]
pub struct BoardForecast {
    pub forecast: Option<Span>,
    pub until: Option<Decimal>,
    pub id: Option<[u8; 36]>,
    pub by: Option<Span>,
    pub board: Board,
}

/// What a BoardForecast says; of a message of another kind all is absent.
pub fn board_forecast(m: Message) -> BoardForecast
    ensures { result ≡ forecast_in m }
{
    let kind = m.kind;
    let id = m.id;
    let cells = cells_if(kind == Kind::BOARD_FORECAST, m);
    BoardForecast {
        forecast: at(cells, 0),
        until: at(cells, 1),
        id: id_at(cells, 2, id),
        by: at(cells, 3),
        board: board_at(cells, 4),
    }
}

/// The message that says it.
pub fn of_board_forecast(v: BoardForecast) -> Message
    ensures { result ≡ message_from kinds.BoardForecast (forecast_fields v) }
{
    let forecast = v.forecast;
    let until = v.until;
    let id = v.id;
    let by = v.by;
    let board = v.board;
    let cells = put([0u64; NUMBERS], 0, forecast);
    let cells = put(cells, 1, until);
    let cells = put_id(cells, 2, id);
    let cells = put(cells, 3, by);
    let cells = put_board(cells, 4, board);
    Message {
        kind: Kind::BOARD_FORECAST,
        cells: cells,
        id: bytes_in(id),
    }
}
