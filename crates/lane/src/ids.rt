// The ForecastId as a record keeps it.
ghost use Rattle.std.specs.Prelude.{◌≡◌};
ghost use Rattle.lane.specs.Ids as says;

/// A ForecastId: its first `length` bytes, with zeros behind. No bytes: none.
// The length stands beside the bytes, as in the record of C, which may hold any of both.
#[derive(Clone, Copy, PartialEq, Eq)]
pub struct Forecast {
    pub length: u8,
    pub bytes: [u8; 80],
}

impl Forecast {
    /// No ForecastId.
    pub fn none() -> Self
        ensures { result ≡ says.no_forecast }
    {
        Forecast {
            length: 0,
            bytes: [0u8; 80],
        }
    }
}
