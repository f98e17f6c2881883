//! Why a client has no answer to what it asked.

ghost use Rattle.std.specs.Prelude.{◌≡◌};
ghost use Rattle.client.specs.Printing.{refusal_name};

use std::fmt;
use wire::ClientRefusal;

/// Why a client has no answer to what it asked. Its text is one line for people.
#[derive(Clone, Copy, Debug, PartialEq, Eq)]
pub enum ClientFault {
    /// The desk refused.
    Refused { refusal: ClientRefusal },
    /// The connection ended, a read failed, or the bytes that came are not the answer.
    NoAnswer,
    /// A write failed.
    Write,
    /// Memory ran out.
    NoMemory,
}

/// The name of a refusal.
pub fn refusal_name(refusal: ClientRefusal) -> &'static str
    ensures { result.now ≡ refusal_name refusal }
{
    match refusal {
        ClientRefusal::Busy => "Busy",
        ClientRefusal::LogFull => "LogFull",
        ClientRefusal::BallotsSpent => "BallotsSpent",
        ClientRefusal::NoMemory => "NoMemory",
        ClientRefusal::Down => "Down",
        ClientRefusal::NotThere => "NotThere",
        ClientRefusal::NoSuchRound => "NoSuchRound",
        ClientRefusal::Foreign => "Foreign",
        ClientRefusal::NotAllowed => "NotAllowed",
        ClientRefusal::HallDiffers => "HallDiffers",
    }
}

impl fmt::Display for ClientFault {
    ghost use Rattle.std.specs.Prelude.{Some};
    ghost use Rattle.client.specs.Printing.{fault_text};

    ghost output = { λ fault. Some (fault_text fault) };

    fn fmt<W: fmt::Write>(&self, f: &mut fmt::Formatter<W>) -> fmt::Result {
        match self {
            ClientFault::Refused { refusal } => {
                f.write_str("refused ")?;
                f.write_str(refusal_name(*refusal))
            }
            ClientFault::NoAnswer => f.write_str("no answer"),
            ClientFault::Write => f.write_str("cannot write"),
            ClientFault::NoMemory => f.write_str("no memory"),
        }
    }
}
