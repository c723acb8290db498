// The values that messages hand out.

/// A positive number in millionths, and how many digits stand behind its point.
#[derive(Clone, Copy)]
pub struct Decimal {
    pub millionths: u64,
    pub decimals: u64,
}

/// Which features stand in SupportedFeatures.
#[derive(Clone, Copy)]
pub struct Features {
    pub forecast: bool,
    pub query: bool,
    pub send: bool,
}
