// The event of a message that is to be sent.
ghost use Rattle.events.specs.Says.{Forecasts, Given};

use crate::named::{LONGEST, forecast_words, kept};
use lane::{Event, Forecast};

// The ForecastId of a message whose texts are parts of `texts`. One that is too long or runs outside is none: it is refused before.
fn sent_forecast(kind: u8, cells: &[u64], texts: &[u8]) -> Option<Forecast>
    ensures { Forecasts texts.now kind cells.now result }
{
    let Some(p) = forecast_words(kind, cells) else {
        return None;
    };
    if LONGEST < p.len || texts.len() < p.start || texts.len() - p.start < p.len {
        return None;
    }
    Some(kept(&texts[p.start..p.start + p.len]))
}

/// What the chart looks at in a message whose texts are parts of `texts`.
pub fn sent_event(kind: u8, cells: &[u64], id: [u8; 36], texts: &[u8]) -> Event
    ensures { Given texts.now kind cells.now id result }
{
    Event {
        kind,
        id,
        forecast: sent_forecast(kind, cells, texts),
    }
}
