//! The form of an answer, which its request asks for.

/// The form of an answer's content.
#[derive(Clone, Copy)]
pub enum Form {
    Json,
    /// Comma-separated values, as a text under the one key of a JSON object.
    Csv,
}
