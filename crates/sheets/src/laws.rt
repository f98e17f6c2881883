//! What holds of every sheet.

ghost use Rattle.sheets.specs.{EditionLaw.PrintsAsEarlier, FrameLaw.FitsInAFrame};

/// A law: a sheet has at most 299,992 bytes, so that it fits into a frame of desks. It holds for
/// every list of entries that a meet was given, every round that was opened, and every position
/// that is a `u32`.
pub fn fits_in_a_frame()
    ensures { FitsInAFrame }
{}

/// A law: a later edition changes no sheet before it is set. For every number of editions, of a
/// list that sets none of the further ones a program that knows more editions prints the sheets of
/// one that knows these alone, of every event, at every position and in both forms; or both have
/// none.
pub fn later_editions_change_no_sheet()
    ensures { PrintsAsEarlier }
{}
