//! Which requests are from the program's own pages.

ghost use Rattle.std.specs.Prelude.{◌≡◌, codes, map, string_bytes};
ghost use Rattle.table_service.specs.Gate.{are_hosts, are_origins, is_host};
ghost use Rattle.table_service.specs.Gate.{is_origin, is_own, values_in};

use bytes::Bytes;
use http::{Request, header};

/// Whether a value is one of the hosts.
fn is_host(hosts: &[String], value: &[u8]) -> bool
    ensures { result ≡ is_host (map string_bytes hosts.now) value.now }
{
    for host in hosts {
        if host.as_bytes() == value {
            return true;
        }
    }
    false
}

/// Whether a value is the origin of a page of one of the hosts.
fn is_origin(hosts: &[String], value: &[u8]) -> bool
    ensures { result ≡ is_origin (map string_bytes hosts.now) value.now }
{
    value.len() >= 7 && value.starts_with(b"http://") && is_host(hosts, &value[7..])
}

/// Whether all hosts that a request names are the program's own.
fn hosts_are_own(hosts: &[String], request: &Request<Bytes>) -> bool
    ensures { result ≡ are_hosts (map string_bytes hosts.now)
        (values_in (codes "host") request.now) }
{
    for value in request.headers().get_all(header::HOST).iter() {
        if !is_host(hosts, value.as_bytes()) {
            return false;
        }
    }
    true
}

/// Whether all origins that a request names are pages of the program's own.
fn origins_are_own(hosts: &[String], request: &Request<Bytes>) -> bool
    ensures { result ≡ are_origins (map string_bytes hosts.now)
        (values_in (codes "origin") request.now) }
{
    for value in request.headers().get_all(header::ORIGIN).iter() {
        if !is_origin(hosts, value.as_bytes()) {
            return false;
        }
    }
    true
}

/// Whether a request names a host, no host but the program's own, and no origin but a page of its
/// own.
pub(crate) fn is_own(hosts: &[String], request: &Request<Bytes>) -> bool
    ensures { result ≡ is_own (map string_bytes hosts.now) request.now }
{
    request.headers().get(header::HOST).is_some()
        && hosts_are_own(hosts, request)
        && origins_are_own(hosts, request)
}
