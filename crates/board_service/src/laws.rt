//! A law of what is answered.

ghost use Rattle.board_service.specs.Laws.{FileIsBeside};

/// A law: no page of the list, and nothing that is said of the desks, depends on the competition's
/// file. What is answered at a path that is none of the file's is answered there with any other
/// file too, and without one. `file_views::paths_are_apart` says that no page of the list is at a
/// path of the file's.
pub fn file_is_beside()
    ensures { FileIsBeside }
{}
