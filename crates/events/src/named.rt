// The ForecastId of a message.
ghost use Rattle.std.specs.Prelude.{◌≡◌};
ghost use Rattle.events.specs.Says.{forecast_cell, Kept, Names};

use cells::{number_at, text_from};
use lane::{Forecast, Kind};
use value::Span;

/// The longest ForecastId.
pub const LONGEST: usize = 80;

// Where its cell stands; behind all cells if the kind has none.
fn forecast_cell(kind: u8) -> usize
    ensures { result ≡ forecast_cell kind }
{
    match kind {
        Kind::MACHINE_READY => 3,
        Kind::BOARD_FORECAST => 0,
        _ => 72,
    }
}

/// The value ForecastId of a message of that kind.
pub fn forecast_words(kind: u8, cells: &[u64]) -> Option<Span>
    ensures { Names kind cells.now result }
{
    let at = forecast_cell(kind);
    if 72 <= at {
        return None;
    }
    text_from(
        number_at(cells, at),
        number_at(cells, at + 1),
        number_at(cells, at + 2),
    )
}

/// A ForecastId as a lane keeps it. One that is too long is none.
pub fn kept(v: &[u8]) -> Forecast
    ensures { Kept v.now result }
{
    let n = v.len();
    if LONGEST < n {
        return Forecast::none();
    }
    let mut bytes = [0u8; 80];
    bytes[..n].copy_from_slice(v);
    Forecast {
        length: n as u8,
        bytes,
    }
}
