//! The forms of a report.

/// How a report is written.
#[derive(Clone, Copy, Debug, PartialEq, Eq)]
pub enum Form {
    /// Lines of words, as a person reads them.
    Text,
    /// Rows of comma-separated fields (RFC 4180): a header, and a row for each obligation.
    Csv,
    /// One JSON object (RFC 8259), on one line.
    Json,
}
