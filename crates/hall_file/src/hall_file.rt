//! A hall, where its desks listen, and where its key is.

ghost use Rattle.std.specs.Prelude.{vec_len, IsTrue};
ghost use Rattle.hall_file.specs.Addresses.{is_count};

/// A hall, where its desks listen, and where its key is.
#[derive(Debug, Drop, PartialEq)]
pub struct HallFile {
    /// The number of the hall.
    pub hall: u32,
    /// The address of each desk, `HOST:PORT`, desk 1 first: three or five.
    pub desks: Vec<String>,
    /// The path of the file with the hall's key, as the hall's file has it, where it has one:
    /// [`key_path`](crate::key_path) gives the path to open.
    pub key: Option<String>,
    ghost three_or_five: { IsTrue (is_count (vec_len desks)) },
}

impl HallFile {
    ghost use Rattle.std.specs.Prelude.{◌≡◌, option_map};
    ghost use Rattle.hall_file.specs.Halls.{address_at, key_text, texts_of};

    /// How many desks the hall has: 3 or 5.
    pub fn desk_count(&self) -> u8
        ensures { result ≡ vec_len self.now.desks }
    {
        if self.desks.len() == 3 { 3 } else { 5 }
    }

    /// The path of the key's file, as the hall's file has it, where it has one.
    pub fn key(&self) -> Option<&str>
        ensures { option_map (λ s. s.now) result ≡ key_text self.now }
    {
        match &self.key {
            Some(path) => Some(path.as_str()),
            None => None,
        }
    }

    /// The address of the desk with this number. There is none for 0 and for a number above
    /// [`desk_count`](Self::desk_count).
    pub fn address_of(&self, desk: u8) -> Option<&str>
        ensures { option_map (λ s. s.now) result ≡ address_at (texts_of self.now) desk }
    {
        if desk == 0 {
            return None;
        }
        match self.desks.get(usize::from(desk) - 1) {
            Some(text) => Some(text.as_str()),
            None => None,
        }
    }
}
