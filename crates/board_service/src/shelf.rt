//! Pages that were made, by their paths.

ghost use Rattle.std.specs.Prelude.{◌≡◌, ◌<◌, ◌≤◌, IfOk};
ghost use Rattle.indexmap.specs.IndexMap.{index_map_len};

use desk_sockets::DialogueChange;
use indexmap::IndexMap;
use markup::replies::Page;
use std::alloc::{AllocError, Global};

/// The most pages that are kept.
const MOST_PAGES: usize = 64;

/// Pages by their paths, at most 64.
#[derive(Drop)]
pub(crate) struct Shelf {
    alloc: Global,
    pub(crate) pages: IndexMap<String, Page>,
    ghost few: { index_map_len pages ≤ 64 },
}

impl Shelf {
    ghost use Rattle.std.specs.Option.{option_copied};
    ghost use Rattle.board_service.specs.Shelves.{HasNone, HasNoOther, IsRefreshed, Puts};
    ghost use Rattle.board_service.specs.Shelves.{page_on};

    /// No page. Its room is taken here.
    pub(crate) fn new(alloc: Global) -> Result<Shelf, AllocError>
        ensures { IfOk result HasNone }
    {
        let pages = IndexMap::with_capacity(alloc, MOST_PAGES)?;
        Ok(Shelf { alloc, pages })
    }

    /// The page that is kept at a path.
    pub(crate) fn get(&self, path: &str) -> Option<&Page>
        ensures { option_copied result ≡ page_on self.now path.now }
    {
        self.pages.get(path)
    }

    /// Gives all pages up, unless the mirror that they were made from holds what it held.
    pub(crate) fn refresh(&mut self, kept: DialogueChange)
        ensures { IsRefreshed kept self.old self.new }
    {
        match kept {
            DialogueChange::Same => {}
            DialogueChange::Changed | DialogueChange::Broken => self.pages.clear(),
        }
    }

    /// Gives all pages up where there is no room for one more.
    fn make_room(&mut self)
        ensures room { index_map_len self.new.pages < 64 }
        ensures others { HasNoOther self.old self.new }
    {
        if self.pages.len() >= MOST_PAGES {
            self.pages.clear();
        }
    }

    /// Keeps a page at a path. Where there are as many as may be, the others are given up. Where
    /// memory is refused, it isn't kept.
    pub(crate) fn put(&mut self, path: &str, page: Page)
        ensures { Puts path.now page self.old self.new }
    {
        let Ok(path) = String::from_str(self.alloc, path) else {
            return;
        };
        self.make_room();
        match self.pages.insert(path, page) {
            Ok(_) => {}
            // The pages are as they were.
            Err(_) => {}
        }
    }
}
