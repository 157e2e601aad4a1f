//! What is asked of an engine from its opening to its end, and what it tells.

use fjall_calls::{Reply, TxCall};

/// One life of an engine: the calls of one list, those within transactions among them, and whether it is closed behind them or let go.
#[derive(Debug, Drop)]
pub struct Life {
    pub calls: Vec<TxCall>,
    pub closes: bool,
}

/// What it told: the replies to its calls, and whether it closed.
#[derive(Debug, Drop)]
pub struct Told {
    pub replies: Vec<Reply>,
    pub closed: bool,
}
