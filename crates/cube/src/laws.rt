//! Laws of the definitions, for every sticker and every arrangement.

ghost use Rattle.std.specs.Prelude.{◌≡◌, All, length, slice_get, Some};
ghost use Rattle.cube.specs.Stickers.{Sticker, IsSticker, stickers, number};
ghost use Rattle.cube.specs.{declared.moves.Kind.Kind, Turns.IsNoneFourTimes};

/// There are 54 stickers, and each is in their list at its number.
pub fn fifty_four_stickers()
    ensures count { length stickers ≡ 54 }
    ensures each { All IsSticker stickers }
    ensures numbers { (s : Sticker) → IsSticker s → slice_get stickers (number s) ≡ Some s }
{}

/// Four quarter turns of one kind are none.
pub fn four_quarter_turns()
    ensures { (kind : Kind) → IsNoneFourTimes kind }
{}
