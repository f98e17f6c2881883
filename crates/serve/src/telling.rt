//! The lines that a serving desk prints.

ghost use Rattle.std.specs.Prelude.{◌≡◌, ◌++◌, decimal, IfOk, IfErr, OnOk, OnErr};
ghost use Rattle.std.specs.Io.KnownBytes.{Appends};
ghost use Rattle.lines.specs.Bytes.{AppendsPart};
ghost use Rattle.serve.specs.Printing.{IsOfLine, first_line, last_line};

use crate::fault::ServeFault;
use itoa::Buffer;
use lines::write_text;
use std::alloc::{AllocError, Global};
use std::io::Write;
use store::home::Home;

/// Adds a text and a number in decimal.
fn push(out: &mut Vec<u8>, text: &[u8], number: u64) -> Result<(), AllocError>
    ensures { OnOk result (out.new.items ≡ out.old.items ++ text.now ++ decimal number) }
{
    let mut buffer = Buffer::new();
    out.extend_from_slice(text)?;
    out.extend_from_slice(buffer.format(number).as_bytes())
}

/// Which desk it is, of how many, and how long its log is.
fn first_line(alloc: Global, home: Home, len: u32) -> Result<Vec<u8>, AllocError>
    ensures { IfOk result (λ line. line.items ≡ first_line home len) }
{
    let mut out = Vec::new(alloc);
    push(&mut out, b"desk ", u64::from(home.desk))?;
    push(&mut out, b" of ", u64::from(home.desks))?;
    push(&mut out, b" len ", u64::from(len))?;
    out.extend_from_slice(b"\n")?;
    Ok(out)
}

/// How many clients came.
fn last_line(alloc: Global, connections: u64) -> Result<Vec<u8>, AllocError>
    ensures { IfOk result (λ line. line.items ≡ last_line connections) }
{
    let mut out = Vec::new(alloc);
    push(&mut out, b"served ", connections)?;
    out.extend_from_slice(b"\n")?;
    Ok(out)
}

/// Prints which desk it is, of how many, and how long its log is.
pub fn tell_first<W: Write>(
    alloc: Global,
    writer: &mut W,
    home: Home,
    len: u32,
) -> Result<(), ServeFault>
    ensures ok { OnOk result
        (Appends (W.contents writer.old) (W.contents writer.new) (first_line home len)) }
    ensures err { OnErr result
        (AppendsPart (W.contents writer.old) (W.contents writer.new) (first_line home len)) }
    ensures fault { IfErr result IsOfLine }
{
    let Ok(line) = first_line(alloc, home, len) else {
        return Err(ServeFault::NoMemory);
    };
    match write_text(writer, &line) {
        Ok(()) => Ok(()),
        Err(_) => Err(ServeFault::Write),
    }
}

/// Prints how many clients came.
pub fn tell_last<W: Write>(
    alloc: Global,
    writer: &mut W,
    connections: u64,
) -> Result<(), ServeFault>
    ensures ok { OnOk result
        (Appends (W.contents writer.old) (W.contents writer.new) (last_line connections)) }
    ensures err { OnErr result
        (AppendsPart (W.contents writer.old) (W.contents writer.new) (last_line connections)) }
    ensures fault { IfErr result IsOfLine }
{
    let Ok(line) = last_line(alloc, connections) else {
        return Err(ServeFault::NoMemory);
    };
    match write_text(writer, &line) {
        Ok(()) => Ok(()),
        Err(_) => Err(ServeFault::Write),
    }
}
