// The structs of the kinds: made of a message, and laid into one. Nothing is lost either way.
#![tactic(auto)]

mod alive;
mod board_part;
mod boards;
mod celled;
mod forecasts;
mod laying;
mod making;
mod notices;
mod ready;
mod services;
mod starts;
mod transfers;

pub use alive::{CheckAlive, check_alive, of_check_alive};
pub use board_part::Board;
pub use boards::{BoardAvailable, board_available, of_board_available};
pub use forecasts::{BoardForecast, board_forecast, of_board_forecast};
pub use notices::{Notification, notification_in as notification, of_notification};
pub use ready::{MachineReady, machine_ready, of_machine_ready};
pub use services::{ServiceDescription, of_service_description, service_description};
pub use starts::{StartTransport, of_start_transport, start_transport};
pub use transfers::{Transfer, of_stop_transport, of_transport_finished, transfer_in as transfer};
