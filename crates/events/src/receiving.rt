// The event of a message that was received.
ghost use Rattle.grammar.specs.Bytes.{Bytes};
ghost use Rattle.message.specs.Messages.{message_by};
ghost use Rattle.meant.specs.Events.{forecast_id, Sound};
ghost use Rattle.events.specs.Says.{Got, Reads};

use crate::named::{forecast_words, kept};
use lane::{Event, Forecast};
use value::Span;

// The ForecastId that stands there, decoded.
fn read_at(s: &[u8], p: Span) -> Forecast
    ensures { Reads s.now p result }
{
    let mut scratch = [0u8; 80];
    let at = texts::text_decode(s, Some(p), &mut scratch);
    kept(texts::text_part(s, &scratch, at))
}

/// What the chart looks at in a message of s. Its ForecastId, if it has one, reads as at most 80 bytes.
pub fn received_event(s: &[u8], kind: u8, cells: &[u64], id: [u8; 36]) -> Event
    requires { (i : Bytes) → Sound s.now (forecast_id (message_by kind cells.now i)) }
    ensures { Got s.now kind cells.now id result }
{
    match forecast_words(kind, cells) {
        None => Event {
            kind,
            id,
            forecast: None,
        },
        Some(p) => Event {
            kind,
            id,
            forecast: Some(read_at(s, p)),
        },
    }
}
