//! What a reader of comma-separated values finds in a sheet's table.

ghost use Rattle.sheets.specs.ReadingBack.{TableReadsBack};

/// A law: the table of every round that was opened, read by the reader of the crate `csv`, has the
/// header and then one record for each entrant in order of standings: place, number, name, average,
/// best, attempts and mark, as they are printed. So names with commas and double quotes come out as
/// they are.
pub fn table_reads_back()
    ensures { TableReadsBack }
{}
