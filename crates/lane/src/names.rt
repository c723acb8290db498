// The numbers that stand for document 01's words. specs/Names.antt has the same ones.

// Numbers, no enums: receiving, sending and the calls for C answer to every number, and a type would leave some out.

/// Sides of a handover: ours, and a message's sender.
#[derive(Clone, Copy)]
pub struct Side;

impl Side {
    pub const UPSTREAM: u8 = 1;

    pub const DOWNSTREAM: u8 = 2;
}

/// The nine states, in the order of document 01's table.
#[derive(Clone, Copy)]
pub struct State;

impl State {
    pub const NOT_CONNECTED: u8 = 0;

    pub const DESCRIBED_DOWN: u8 = 1;

    pub const IDLE: u8 = 2;

    pub const OFFERED: u8 = 3;

    pub const READY: u8 = 4;

    pub const BOTH: u8 = 5;

    pub const TRANSPORTING: u8 = 6;

    pub const STOPPED: u8 = 7;

    pub const FINISHED: u8 = 8;
}

/// The kinds of message, as document 01's attribute table numbers them; 0 is a name that is not in it.
#[derive(Clone, Copy)]
pub struct Kind;

impl Kind {
    pub const UNKNOWN: u8 = 0;

    pub const SERVICE_DESCRIPTION: u8 = 1;

    pub const NOTIFICATION: u8 = 2;

    pub const BOARD_AVAILABLE: u8 = 3;

    pub const REVOKE_BOARD_AVAILABLE: u8 = 4;

    pub const MACHINE_READY: u8 = 5;

    pub const REVOKE_MACHINE_READY: u8 = 6;

    pub const START_TRANSPORT: u8 = 7;

    pub const STOP_TRANSPORT: u8 = 8;

    pub const TRANSPORT_FINISHED: u8 = 9;

    pub const CHECK_ALIVE: u8 = 10;

    pub const BOARD_FORECAST: u8 = 11;
}

/// Belt orders.
#[derive(Clone, Copy)]
pub struct Order;

impl Order {
    pub const NONE: u8 = 0;

    pub const RUN: u8 = 1;

    pub const CANCEL: u8 = 2;

    pub const STOP_NOW: u8 = 3;
}

/// The refusals that a chart gives.
#[derive(Clone, Copy)]
pub struct Refusal;

impl Refusal {
    pub const ACCEPTED: u8 = 0;

    pub const MAY_NOT_BE_SENT: u8 = 8;

    pub const PROTOCOL_ERROR: u8 = 9;
}
