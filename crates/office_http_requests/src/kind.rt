//! What a request asks the register to record.

/// What a request asks the register to record.
#[derive(Clone, Copy)]
pub enum RecordKind {
    /// An inspection of a cabinet.
    Inspect,
    /// The opening of an order.
    OpenOrder,
    /// A part that is used for an order.
    UsePart,
    /// The closing of an order.
    CloseOrder,
    /// A delivery of a part.
    Receive,
}
