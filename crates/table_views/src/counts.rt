//! Numbers of machines, in words.

ghost use Rattle.std.specs.Prelude.{◌≡◌};
ghost use Rattle.table_views.specs.Counts.{are_away, number_start, number_word};

/// A number of machines, of which a hall has at most five.
pub(crate) fn number_word(count: usize) -> &'static [u8]
    ensures { result.now ≡ number_word count }
{
    match count {
        1 => b"one",
        2 => b"two",
        3 => b"three",
        4 => b"four",
        5 => b"five",
        _ => b"several",
    }
}

/// The same at the beginning of a sentence.
pub(crate) fn number_start(count: usize) -> &'static [u8]
    ensures { result.now ≡ number_start count }
{
    match count {
        1 => b"One",
        2 => b"Two",
        3 => b"Three",
        4 => b"Four",
        5 => b"Five",
        _ => b"Several",
    }
}

/// What is said of this many machines that do not answer.
pub(crate) fn are_away(count: usize) -> &'static [u8]
    ensures { result.now ≡ are_away count }
{
    match count {
        1 => b" machine is away",
        _ => b" machines are away",
    }
}
