//! Which socket a token of the poll names.

ghost use Rattle.std.specs.Prelude.{◌≡◌, ◌<◌, ◌+◌, ◌-◌, ◌^◌, IfSome, IsSome, ◌↔◌};
ghost use Rattle.polled.specs.sockets.Tokens.{source_of};

use mio::Token;

/// The tokens from this one on are the program's own and the listener's, those below it the
/// peers'.
pub const FIRST_OTHER: usize = usize::MAX - 256;

/// A socket of the poll.
#[derive(Clone, Copy, PartialEq, Eq, Debug)]
pub enum PolledSocket {
    Peer { number: u64 },
    /// A socket of the program's own.
    Other,
    Listener,
}

/// The listener's token.
pub fn listener_token() -> Token
    ensures { source_of result.0 ≡ PolledSocket.Listener }
{
    Token(usize::MAX)
}

/// The token of a socket of the program's own, for each number of one byte another one.
pub fn own_token(number: u8) -> Token
    ensures other { source_of result.0 ≡ PolledSocket.Other }
    ensures place { result.0 ≡ 2 ^ 64 - 257 + number }
{
    Token(FIRST_OTHER + usize::from(number))
}

/// The token of the peer with this number. None: the number is one of the last 257.
pub fn peer_token(number: u64) -> Option<Token>
    ensures known { IsSome result ↔ (number < 2 ^ 64 - 257) }
    ensures names { IfSome result (λ token. source_of token.0 ≡ PolledSocket.Peer number) }
{
    let token = number as usize;
    if token < FIRST_OTHER {
        Some(Token(token))
    } else {
        None
    }
}

/// The socket that a token names.
pub fn source_of(token: Token) -> PolledSocket
    ensures { result ≡ source_of token.0 }
{
    if token.0 < FIRST_OTHER {
        PolledSocket::Peer {
            number: token.0 as u64,
        }
    } else if token.0 < usize::MAX {
        PolledSocket::Other
    } else {
        PolledSocket::Listener
    }
}
