//! The arguments of a program, and numbers among them.

ghost use Rattle.std.specs.Prelude.{◌≡◌, decimal, map, string_bytes, IfOk, IfSome};
ghost use Rattle.command_line.specs.Arguments.{argument_texts};

use itoa::Buffer;
use std::alloc::{AllocError, Global};
use std::io::ErrorKind;
use std::{env, io};

/// The arguments that the program was given, its own name first.
///
/// # Errors
///
/// `OutOfMemory` where memory runs out; another one where an argument is not UTF-8 text.
pub fn given(rt: &HostRuntime) -> io::Result<Vec<String>> {
    let arguments = env::args(rt)?;
    match arguments.collect::<Vec<String>>(rt.alloc()) {
        Ok(texts) => Ok(texts),
        Err(_) => Err(io::Error::from(ErrorKind::OutOfMemory)),
    }
}

/// These texts, borrowed.
pub fn borrowed<'a>(alloc: Global, texts: &'a [String]) -> Result<Vec<&'a str>, AllocError>
    ensures { IfOk result (λ given. argument_texts given.items ≡ map string_bytes texts.now) }
{
    let mut given = Vec::new(alloc);
    for text in texts {
        given.push(text.as_str())?;
    }
    Ok(given)
}

/// The number that a text is in decimal. No number where the text has a sign or leading zeros, is
/// no number at all, or is 2^64 or more.
pub fn plain_number(text: &str) -> Option<u64>
    ensures { IfSome result (λ n. text.now ≡ decimal n) }
{
    let Ok(number) = text.parse::<u64>() else {
        return None;
    };
    let mut buffer = Buffer::new();
    if buffer.format(number) != text {
        return None;
    }
    Some(number)
}
