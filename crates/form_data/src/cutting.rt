//! Where a mark is in bytes.

ghost use Rattle.std.specs.Prelude.{◌≡◌, drop, option_map, take};
ghost use Rattle.std.specs.Option.{option_copied};
ghost use Rattle.form_data.specs.Cutting.{after_word, begins_as, cut, is_blank, line_of};
ghost use Rattle.form_data.specs.Cutting.{without_blanks};

/// What is before the first place of a mark and after it; none where the mark is nowhere.
///
/// The mark is compared at every place. All marks here begin with a carriage return and have few
/// others, so the work is that of the bytes.
pub fn cut<'a>(mark: &[u8], bytes: &'a [u8]) -> Option<(&'a [u8], &'a [u8])>
    ensures { option_map (λ parts. (parts.0.now, parts.1.now)) result ≡ cut mark.now bytes.now }
{
    for place in 0..bytes.len() {
        let (before, left) = bytes.split_at(place);
        if left.starts_with(mark) {
            return Some((before, left.split_at(mark.len()).1));
        }
    }
    None
}

/// The bytes after the first `count`; none where there are no more.
pub fn without_front(count: usize, bytes: &[u8]) -> &[u8]
    ensures { result.now ≡ drop count bytes.now }
{
    if count <= bytes.len() {
        bytes.split_at(count).1
    } else {
        &[]
    }
}

/// The first `count` bytes, or all where there are fewer.
pub fn front(count: usize, bytes: &[u8]) -> &[u8]
    ensures { result.now ≡ take count bytes.now }
{
    if count <= bytes.len() {
        bytes.split_at(count).0
    } else {
        bytes
    }
}

/// The bytes up to the next end of a line, or all.
pub fn line_of(bytes: &[u8]) -> &[u8]
    ensures { result.now ≡ line_of bytes.now }
{
    match cut(b"\r\n", bytes) {
        Some((line, _)) => line,
        None => bytes,
    }
}

/// Whether a byte is a space or a tab.
pub fn is_blank(byte: u8) -> bool
    ensures { result ≡ is_blank byte }
{
    byte == b' ' || byte == b'\t'
}

/// The bytes after the spaces and tabs in front.
pub fn without_blanks(bytes: &[u8]) -> &[u8]
    ensures { result.now ≡ without_blanks bytes.now }
{
    for (place, byte) in bytes.iter().enumerate() {
        if !is_blank(*byte) {
            return bytes.split_at(place).1;
        }
    }
    &[]
}

/// What is after a word in lower case, whatever the case of its letters, and after the blanks
/// before it; none where another word is there.
pub fn after_word<'a>(word: &[u8], bytes: &'a [u8]) -> Option<&'a [u8]>
    ensures { option_copied result ≡ after_word word.now bytes.now }
{
    let left = without_blanks(bytes);
    if begins_as(word, left) {
        Some(without_front(word.len(), left))
    } else {
        None
    }
}

/// Whether bytes begin with a word in lower case, whatever the case of their letters.
#[tactic(auto, using(crate::proofs::Words::too_short))]
pub fn begins_as(word: &[u8], bytes: &[u8]) -> bool
    ensures { result ≡ begins_as word.now bytes.now }
{
    if bytes.len() < word.len() {
        return false;
    }
    for (place, letter) in word.iter().enumerate() {
        if bytes[place].to_ascii_lowercase() != *letter {
            return false;
        }
    }
    true
}
