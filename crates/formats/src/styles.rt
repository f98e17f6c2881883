//! How a sheet is printed.

/// How a sheet is printed.
#[derive(Clone, Copy, Debug, PartialEq, Eq)]
pub enum SheetStyle {
    /// Lines for reading, in columns of fixed widths.
    Text,
    /// Comma-separated values, a record a line.
    Table,
}
