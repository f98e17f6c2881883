//! The attempts of a format.

ghost use Rattle.std.specs.Prelude.{◌≡◌};
ghost use Rattle.round_counts.specs.Counts.{numbers_in};

use formats::Format;

/// The numbers of the attempts of a format: 1, 2 and so on.
pub fn numbers_in(format: Format) -> &'static [u8]
    ensures { result.now ≡ numbers_in format }
{
    match format {
        Format::Ao5 => &[1, 2, 3, 4, 5],
        Format::Mo3 | Format::Bo3 => &[1, 2, 3],
        Format::Bo1 => &[1],
        Format::Bo2 => &[1, 2],
    }
}
