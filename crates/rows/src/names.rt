// The names that code asks for: the child with the features, and the features in it.

pub const SUPPORTED_FEATURES: &[u8] = b"SupportedFeatures";

pub const FEATURE_BOARD_FORECAST: &[u8] = b"FeatureBoardForecast";

pub const FEATURE_QUERY_BOARD_INFO: &[u8] = b"FeatureQueryBoardInfo";

pub const FEATURE_SEND_BOARD_INFO: &[u8] = b"FeatureSendBoardInfo";
