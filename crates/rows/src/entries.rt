// The attribute table: a constant for each row, the rows of each kind, and the kinds in order. It is read where it stands.
use crate::data::Form::{Features, Guid, Int, Positive, SomeText, Text, Version};
use crate::data::Need::{Optional, Required};
use crate::data::{Entry, Row};
use crate::names;

const MACHINE_ID: Row = Row {
    name: b"MachineId",
    form: Text { most: 80 },
    need: Required,
};

const LANE_ID: Row = Row {
    name: b"LaneId",
    form: Int {
        low: 1,
        high: 65535,
    },
    need: Required,
};

const VERSION: Row = Row {
    name: b"Version",
    form: Version,
    need: Required,
};

const SUPPORTED_FEATURES: Row = Row {
    name: names::SUPPORTED_FEATURES,
    form: Features,
    need: Required,
};

const NOTIFICATION_CODE: Row = Row {
    name: b"NotificationCode",
    form: Int {
        low: 1,
        high: 65535,
    },
    need: Required,
};

const SEVERITY: Row = Row {
    name: b"Severity",
    form: Int { low: 1, high: 4 },
    need: Required,
};

const DESCRIPTION: Row = Row {
    name: b"Description",
    form: Text { most: 254 },
    need: Required,
};

const BOARD_ID: Row = Row {
    name: b"BoardId",
    form: Guid,
    need: Required,
};

const BOARD_ID_CREATED_BY: Row = Row {
    name: b"BoardIdCreatedBy",
    form: SomeText { most: 80 },
    need: Required,
};

const FAILED_BOARD: Row = Row {
    name: b"FailedBoard",
    form: Int { low: 0, high: 2 },
    need: Required,
};

const PRODUCT_TYPE_ID: Row = Row {
    name: b"ProductTypeId",
    form: Text { most: 254 },
    need: Optional,
};

const FLIPPED_BOARD: Row = Row {
    name: b"FlippedBoard",
    form: Int { low: 0, high: 2 },
    need: Required,
};

const TOP_BARCODE: Row = Row {
    name: b"TopBarcode",
    form: Text { most: 254 },
    need: Optional,
};

const BOTTOM_BARCODE: Row = Row {
    name: b"BottomBarcode",
    form: Text { most: 254 },
    need: Optional,
};

const LENGTH: Row = Row {
    name: b"Length",
    form: Positive,
    need: Optional,
};

const WIDTH: Row = Row {
    name: b"Width",
    form: Positive,
    need: Optional,
};

const THICKNESS: Row = Row {
    name: b"Thickness",
    form: Positive,
    need: Optional,
};

const CONVEYOR_SPEED: Row = Row {
    name: b"ConveyorSpeed",
    form: Positive,
    need: Optional,
};

const TOP_CLEARANCE_HEIGHT: Row = Row {
    name: b"TopClearanceHeight",
    form: Positive,
    need: Optional,
};

const BOTTOM_CLEARANCE_HEIGHT: Row = Row {
    name: b"BottomClearanceHeight",
    form: Positive,
    need: Optional,
};

const WEIGHT: Row = Row {
    name: b"Weight",
    form: Positive,
    need: Optional,
};

const WORK_ORDER_ID: Row = Row {
    name: b"WorkOrderId",
    form: Text { most: 80 },
    need: Optional,
};

const ROUTE: Row = Row {
    name: b"Route",
    form: Int {
        low: 0,
        high: 65535,
    },
    need: Optional,
};

const BATCH_ID: Row = Row {
    name: b"BatchId",
    form: Text { most: 80 },
    need: Optional,
};

const FORECAST_ID: Row = Row {
    name: b"ForecastId",
    form: Text { most: 80 },
    need: Optional,
};

const TRANSFER_STATE: Row = Row {
    name: b"TransferState",
    form: Int { low: 1, high: 3 },
    need: Required,
};

const TYPE: Row = Row {
    name: b"Type",
    form: Int { low: 1, high: 2 },
    need: Optional,
};

const ID: Row = Row {
    name: b"Id",
    form: Text { most: 80 },
    need: Optional,
};

const TIME_UNTIL_AVAILABLE: Row = Row {
    name: b"TimeUntilAvailable",
    form: Positive,
    need: Optional,
};

const FORECAST_BOARD_ID: Row = Row {
    name: b"BoardId",
    form: Guid,
    need: Optional,
};

const FORECAST_BOARD_ID_CREATED_BY: Row = Row {
    name: b"BoardIdCreatedBy",
    form: Text { most: 80 },
    need: Optional,
};

const SERVICE_DESCRIPTION: [Row; 4] = [MACHINE_ID, LANE_ID, VERSION, SUPPORTED_FEATURES];

const NOTIFICATION: [Row; 3] = [NOTIFICATION_CODE, SEVERITY, DESCRIPTION];

const BOARD_AVAILABLE: [Row; 17] = [
    BOARD_ID,
    BOARD_ID_CREATED_BY,
    FAILED_BOARD,
    PRODUCT_TYPE_ID,
    FLIPPED_BOARD,
    TOP_BARCODE,
    BOTTOM_BARCODE,
    LENGTH,
    WIDTH,
    THICKNESS,
    CONVEYOR_SPEED,
    TOP_CLEARANCE_HEIGHT,
    BOTTOM_CLEARANCE_HEIGHT,
    WEIGHT,
    WORK_ORDER_ID,
    ROUTE,
    BATCH_ID,
];

const MACHINE_READY: [Row; 2] = [FAILED_BOARD, FORECAST_ID];

const START_TRANSPORT: [Row; 2] = [BOARD_ID, CONVEYOR_SPEED];

// Of a StopTransport and of a TransportFinished.
const TRANSFERRED: [Row; 2] = [TRANSFER_STATE, BOARD_ID];

const CHECK_ALIVE: [Row; 2] = [TYPE, ID];

const BOARD_FORECAST: [Row; 17] = [
    FORECAST_ID,
    TIME_UNTIL_AVAILABLE,
    FORECAST_BOARD_ID,
    FORECAST_BOARD_ID_CREATED_BY,
    FAILED_BOARD,
    PRODUCT_TYPE_ID,
    FLIPPED_BOARD,
    TOP_BARCODE,
    BOTTOM_BARCODE,
    LENGTH,
    WIDTH,
    THICKNESS,
    CONVEYOR_SPEED,
    TOP_CLEARANCE_HEIGHT,
    BOTTOM_CLEARANCE_HEIGHT,
    WEIGHT,
    WORK_ORDER_ID,
];

/// The kinds, from 1 on.
pub static ENTRIES: [Entry; 11] = [
    Entry {
        name: b"ServiceDescription",
        rows: &SERVICE_DESCRIPTION,
        board_id: None,
    },
    Entry {
        name: b"Notification",
        rows: &NOTIFICATION,
        board_id: None,
    },
    Entry {
        name: b"BoardAvailable",
        rows: &BOARD_AVAILABLE,
        board_id: Some(0),
    },
    Entry {
        name: b"RevokeBoardAvailable",
        rows: &[],
        board_id: None,
    },
    Entry {
        name: b"MachineReady",
        rows: &MACHINE_READY,
        board_id: None,
    },
    Entry {
        name: b"RevokeMachineReady",
        rows: &[],
        board_id: None,
    },
    Entry {
        name: b"StartTransport",
        rows: &START_TRANSPORT,
        board_id: Some(0),
    },
    Entry {
        name: b"StopTransport",
        rows: &TRANSFERRED,
        board_id: Some(3),
    },
    Entry {
        name: b"TransportFinished",
        rows: &TRANSFERRED,
        board_id: Some(3),
    },
    Entry {
        name: b"CheckAlive",
        rows: &CHECK_ALIVE,
        board_id: None,
    },
    Entry {
        name: b"BoardForecast",
        rows: &BOARD_FORECAST,
        board_id: Some(6),
    },
];
