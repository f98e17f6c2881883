//! The address of a desk.

ghost use Rattle.std.specs.Prelude.{◌≡◌, ◌↔◌, IsTrue};
ghost use Rattle.hall_file.specs.Addresses.{is_host_char, IsHost, IsPort, IsAddress};

use itoa::Buffer;

/// Whether a character may be in a host.
fn is_host_char(c: char) -> bool
    ensures { result ≡ is_host_char c }
{
    !c.is_whitespace() && !c.is_control()
}

/// Whether a text is a host: not empty, without white space and control characters.
fn is_host(text: &str) -> bool
    ensures { IsTrue result ↔ IsHost text.now }
{
    !text.is_empty() && text.chars().all(|c| is_host_char(c))
}

/// Whether a text is the number of a port, 1 to 65,535 in decimal, without leading zeros.
fn is_port(text: &str) -> bool
    ensures { IsTrue result ↔ IsPort text.now }
{
    let Ok(port) = text.parse::<u16>() else {
        return false;
    };
    let mut buffer = Buffer::new();
    port > 0 && buffer.format(port) == text
}

/// Whether a text is the address of a desk, `HOST:PORT`. The port is behind the last colon.
pub fn is_address(text: &str) -> bool
    ensures { IsTrue result ↔ IsAddress text.now }
{
    match text.rsplit_once(':') {
        Some((host, port)) => is_host(host) && is_port(port),
        None => false,
    }
}
