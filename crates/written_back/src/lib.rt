// What a received message is answered with: the Notification of a refusal, and the reply to a CheckAlive.
#![tactic(auto)]

mod alive;
mod framed;
mod notices;

pub use alive::reply;
pub use notices::notify;
