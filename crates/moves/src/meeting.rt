// A message that meets a lane: the ids and the belt order that it leaves there once the chart lets it pass.
ghost use Rattle.std.specs.Prelude.{◌≡◌};
ghost use Rattle.lane.specs.Ids.{righted};
ghost use Rattle.lane.specs.Record as says;
ghost use Rattle.moves.specs.Asked.{Asked};

use crate::under_way;
use lane::{Event, Forecast, Kind, Lane, Moved, Order, Refusal, State};

#[derive(Clone, Copy)]
pub(crate) struct Meeting {
    pub(crate) lane: Lane,
    pub(crate) event: Event,
}

impl Meeting {
    // The answer where the message leads to state `n`: the record there, with its ids, and the belt order.
    pub(crate) fn accepted(self, received: bool, n: u8) -> Moved
        ensures { result ≡ says.accepted received n self.lane self.event }
    {
        let lane = Lane {
            side: self.lane.side,
            state: n,
            offered: self.offered_in(n),
            running: self.running_in(n),
            forecast: self.forecast_in(received, n),
        };
        Moved {
            refusal: Refusal::ACCEPTED,
            lane,
            order: self.start_order(),
        }
    }

    // Whether the message carries the id that it is held against, where the chart asks for it: StartTransport, StopTransport,
    // TransportFinished. Of other messages nothing is compared.
    pub(crate) fn carries_held(self) -> bool
        ensures { Asked self.lane self.event result }
    {
        match self.event.kind {
            Kind::START_TRANSPORT..=Kind::TRANSPORT_FINISHED => self.carries_own(),
            _ => false,
        }
    }

    fn carries_own(self) -> bool
        ensures { result ≡ says.carries_own self.lane self.event }
    {
        match self.event.kind {
            Kind::START_TRANSPORT => self.lane.offered == self.event.id,
            _ => self.lane.running == self.event.id,
        }
    }

    // The belt order of an accepted message.
    fn start_order(self) -> u8
        ensures { result ≡ says.start_order self.lane self.event }
    {
        match self.event.kind {
            Kind::START_TRANSPORT if self.lane.state == State::BOTH && self.carries_own() =>
                Order::RUN,
            Kind::START_TRANSPORT => Order::CANCEL,
            _ => Order::NONE,
        }
    }

    // The offered id in state `n`, to which the message led.
    fn offered_in(self, n: u8) -> [u8; 36]
        ensures { result ≡ says.offered_in n self.lane self.event }
    {
        match n {
            State::OFFERED | State::BOTH => {
                if self.event.kind == Kind::BOARD_AVAILABLE {
                    self.event.id
                } else {
                    self.lane.offered
                }
            }
            _ => [0u8; 36],
        }
    }

    // The running id in state `n`, to which the message led.
    fn running_in(self, n: u8) -> [u8; 36]
        ensures { result ≡ says.running_in n self.lane self.event }
    {
        if !under_way(n) {
            [0u8; 36]
        } else if self.event.kind == Kind::START_TRANSPORT {
            self.event.id
        } else {
            self.lane.running
        }
    }

    // The forecast in state `n`, to which the message led.
    fn forecast_in(self, received: bool, n: u8) -> Forecast
        ensures { result ≡ says.forecast_in received n self.lane self.event }
    {
        if forecast_used(n) {
            self.forecast_after(received)
        } else {
            Forecast::none()
        }
    }

    // The forecast behind a message that passes: a received forecast with an id replaces it, a MachineReady with the same id clears it.
    fn forecast_after(self, received: bool) -> Forecast
        ensures { result ≡ says.forecast_after received (says.forecast_held self.lane) self.event }
    {
        let held = self.forecast_held();
        let Some(carried) = self.event.forecast else {
            return held;
        };
        let named = righted(carried);
        match self.event.kind {
            Kind::BOARD_FORECAST if received => named,
            Kind::MACHINE_READY if held == named => Forecast::none(),
            _ => held,
        }
    }

    // The forecast that counts before the message: none where the state has none in use.
    fn forecast_held(self) -> Forecast
        ensures { result ≡ says.forecast_held self.lane }
    {
        if forecast_used(self.lane.state) {
            righted(self.lane.forecast)
        } else {
            Forecast::none()
        }
    }
}

// The states in which a forecast is in use: from Idle on.
fn forecast_used(state: u8) -> bool
    ensures { result ≡ says.forecast_used state }
{
    matches!(state, State::IDLE..=State::FINISHED)
}

// What a forecast reads as: a length above 80 is none, and what stands behind the id is zeros.
fn righted(forecast: Forecast) -> Forecast
    ensures { result ≡ righted forecast }
{
    let length = forecast.length;
    if 80 < length {
        return Forecast::none();
    }
    let end = length as usize;
    let mut bytes = [0u8; 80];
    bytes[..end].copy_from_slice(&forecast.bytes[..end]);
    Forecast { length, bytes }
}
