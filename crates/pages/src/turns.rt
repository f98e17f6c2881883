//! One browser that is ready: bytes are moved, and what came is answered.

ghost use Rattle.std.specs.Prelude.{◌≡◌, ◌<◌, [], length};
ghost use Rattle.http_server.specs.{Connection.config_of, Connection.history, Exchange.Calls};
ghost use Rattle.pages.specs.Asking.{AsksAnswer, AsksMove, Comes, OffersOnce, ReadsOnce};
ghost use Rattle.pages.specs.{Musts.Turns, Turns.Hears, Turns.Moved, Waiting.goes_on};
ghost use Rattle.polled.specs.Requests.{Asks};

use crate::waiting::TurnOutcome;
use http_server::{Connection, Service};
use polled::{ReadOutcome, Sockets, WriteOutcome};

/// Writes once what is to be sent. False: the write failed.
fn send<C: Sockets>(number: u64, connection: &mut Connection, sockets: &mut C) -> bool
    requires { 0 < length (history connection.old).pending }
    ensures moved { Moved number result (C.happened sockets.old) (C.happened sockets.new)
        (history connection.old) (history connection.new) }
    ensures calls { (history connection.new).calls ≡ (history connection.old).calls }
    ensures config { config_of connection.new ≡ config_of connection.old }
    ensures asks { Asks C.requests sockets.old sockets.new (OffersOnce number result) }
{
    match sockets.write(number, connection.output()) {
        WriteOutcome::Bytes { count } => {
            connection.sent(count);
            true
        }
        WriteOutcome::Later => true,
        WriteOutcome::Broke => false,
    }
}

/// Lets a connection hear bytes that came. False: memory was refused, and some are lost.
fn hear(connection: &mut Connection, bytes: &[u8]) -> bool
    ensures hears { Hears result bytes.now (history connection.old) (history connection.new) }
    ensures config { config_of connection.new ≡ config_of connection.old }
{
    let mut unheard = bytes;
    while !unheard.is_empty() {
        let Ok(count) = connection.read_from(&mut unheard) else {
            return false;
        };
        if count == 0 {
            return false;
        }
    }
    true
}

/// Lets a connection know that no more comes. False: memory was refused.
fn hear_the_end(connection: &mut Connection) -> bool
    ensures hears { Hears result [] (history connection.old) (history connection.new) }
    ensures config { config_of connection.new ≡ config_of connection.old }
{
    let mut nothing: &[u8] = &[];
    match connection.read_from(&mut nothing) {
        Ok(_) => true,
        Err(_) => false,
    }
}

/// Reads once. False: the read failed, or memory was refused.
fn read<C: Sockets>(number: u64, connection: &mut Connection, sockets: &mut C) -> bool
    ensures moved { Moved number result (C.happened sockets.old) (C.happened sockets.new)
        (history connection.old) (history connection.new) }
    ensures calls { (history connection.new).calls ≡ (history connection.old).calls }
    ensures config { config_of connection.new ≡ config_of connection.old }
    ensures asks { Asks C.requests sockets.old sockets.new (ReadsOnce number) }
{
    let mut buffer = [0; 4096];
    match sockets.read(number, &mut buffer) {
        ReadOutcome::Bytes { count } => hear(connection, &buffer[..count]),
        ReadOutcome::Ended => hear_the_end(connection),
        ReadOutcome::Later => true,
        ReadOutcome::Broke => false,
    }
}

/// Writes once what is to be sent, or else reads once. False: that failed.
fn move_bytes<C: Sockets>(number: u64, connection: &mut Connection, sockets: &mut C) -> bool
    ensures moved { Moved number result (C.happened sockets.old) (C.happened sockets.new)
        (history connection.old) (history connection.new) }
    ensures calls { (history connection.new).calls ≡ (history connection.old).calls }
    ensures config { config_of connection.new ≡ config_of connection.old }
    ensures asks { Asks C.requests sockets.old sockets.new
        (AsksMove number (history connection.old) result) }
{
    if connection.wants_write() {
        send(number, connection, sockets)
    } else {
        read(number, connection, sockets)
    }
}

/// Answers what came, and writes once what is to be sent, if anything is. Over: the write failed.
fn answer<C: Sockets, S: Service>(
    number: u64,
    connection: &mut Connection,
    sockets: &mut C,
    service: &mut S,
) -> TurnOutcome
    ensures moved { Moved number (goes_on result) (C.happened sockets.old) (C.happened sockets.new)
        (history connection.old) (history connection.new) }
    ensures calls { Calls S.answers service.old service.new
        (history connection.old).calls (history connection.new).calls }
    ensures config { config_of connection.new ≡ config_of connection.old }
    ensures asks { Asks C.requests sockets.old sockets.new
        (AsksAnswer number (config_of connection.new) (history connection.new) result) }
{
    connection.advance(service);
    if !connection.wants_write() {
        return TurnOutcome::Waits;
    }
    if !send(number, connection, sockets) {
        return TurnOutcome::Over;
    }
    // It may have paused for what was just sent.
    connection.advance(service);
    TurnOutcome::Answered
}

/// What came of a turn whose moves all succeeded, and in which something was sent or nothing.
fn turned(connection: &Connection, has_sent: bool) -> TurnOutcome
    ensures { Comes (history connection.now) has_sent result }
{
    if connection.is_done() {
        TurnOutcome::Over
    } else if has_sent && !connection.wants_write() {
        TurnOutcome::Answered
    } else {
        TurnOutcome::Waits
    }
}

/// Writes or reads once, answers what came, and writes once more where that is wanted.
pub(crate) fn take_turn<C: Sockets, S: Service>(
    number: u64,
    connection: &mut Connection,
    sockets: &mut C,
    service: &mut S,
) -> TurnOutcome
    ensures moved { Moved number (goes_on result) (C.happened sockets.old) (C.happened sockets.new)
        (history connection.old) (history connection.new) }
    ensures calls { Calls S.answers service.old service.new
        (history connection.old).calls (history connection.new).calls }
    ensures config { config_of connection.new ≡ config_of connection.old }
    ensures asks { Asks C.requests sockets.old sockets.new (Turns number (config_of connection.old)
        (history connection.old) (history connection.new) result) }
{
    let was_sending = connection.wants_write();
    if !move_bytes(number, connection, sockets) {
        return TurnOutcome::Over;
    }
    match answer(number, connection, sockets, service) {
        TurnOutcome::Over => TurnOutcome::Over,
        TurnOutcome::Answered => turned(connection, true),
        TurnOutcome::Waits => turned(connection, was_sending),
    }
}
