//! Laws of the pages of a file.

ghost use Rattle.file_views.specs.Paths.{PathsAreApart};

/// A law: nothing of a file is at a path of a page of the list.
pub fn paths_are_apart()
    ensures { PathsAreApart }
{}
