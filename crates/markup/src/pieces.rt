//! The pieces of a page.

ghost use Rattle.std.specs.Prelude.{◌≡◌, ◌++◌, OnOk, decimal, length, map};
ghost use Rattle.markup.specs.Pieces.{fill, holes, piece_text};

use crate::board_page::push_escaped;
use itoa::Buffer;
use std::alloc::AllocError;

/// A piece of a page.
#[derive(Clone, Copy)]
pub enum Piece<'a> {
    /// HTML, as it is.
    Html(&'a [u8]),
    /// A text, which HTML reads as it is.
    Text(&'a [u8]),
    /// A number, in decimal.
    Number(u64),
}

fn push_number(out: &mut Vec<u8>, number: u64) -> Result<(), AllocError>
    ensures { OnOk result (out.new.items ≡ out.old.items ++ decimal number) }
{
    let mut buffer = Buffer::new();
    out.extend_from_slice(buffer.format(number).as_bytes())
}

fn push_piece(out: &mut Vec<u8>, piece: Piece<'_>) -> Result<(), AllocError>
    ensures { OnOk result (out.new.items ≡ out.old.items ++ piece_text piece.entry) }
{
    match piece {
        Piece::Html(html) => out.extend_from_slice(html),
        Piece::Text(text) => push_escaped(out, text),
        Piece::Number(number) => push_number(out, number),
    }
}

/// Adds HTML with holes, each a `$`, that these pieces fill in their order. There are as many holes
/// as pieces, so that no piece is left out and no hole stays.
///
/// # Errors
///
/// Where memory runs out. A front part may have been added then.
pub fn fill(out: &mut Vec<u8>, html: &[u8], pieces: &[Piece<'_>]) -> Result<(), AllocError>
    requires { holes html.now ≡ length pieces.now }
    ensures { OnOk result (out.new.items
        ≡ out.old.items ++ fill html.now (map piece_text pieces.now)) }
{
    let mut next = 0;
    for byte in html {
        if *byte == b'$' && next < pieces.len() {
            push_piece(out, pieces[next])?;
            next += 1;
        } else {
            out.push(*byte)?;
        }
    }
    Ok(())
}
