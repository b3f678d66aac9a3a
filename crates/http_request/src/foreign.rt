//! Whether a request is foreign: it names another machine, or a page of another origin has a browser send it.

ghost use Rattle.std.specs.Prelude.{◌≡◌, ◌∷◌, [], length, map, All, codes};
ghost use Rattle.httparse.specs.Spans.{IsHeaderWithin, header_bytes};
ghost use Rattle.http_request.specs.Fields.{values_of};
ghost use Rattle.http_request.specs.Foreign.{is_port, is_at, is_loopback, is_origin_of, is_own_site, is_none_or};
ghost use Rattle.http_request.specs.Foreign.{is_foreign};

use crate::fields::{Values, is_named, values_of};
use crate::length::all_digits;
use httparse::spans::HeaderSpan;

/// Whether there is nothing after the name of a host, or a colon and digits.
fn is_port(rest: &[u8]) -> bool
    ensures { result ≡ is_port rest.now }
{
    match rest.split_first() {
        None => true,
        Some((colon, port)) => *colon == b':' && all_digits(port),
    }
}

/// Whether the host has this name, in whatever case, with a port or without.
fn is_at(host: &[u8], name: &str) -> bool
    ensures { result ≡ is_at name.now host.now }
{
    let (front, rest) = host.split_at(name.len().min(host.len()));
    is_named(front, name) && is_port(rest)
}

/// Whether the host is this machine.
fn is_loopback(host: &[u8]) -> bool
    ensures { result ≡ is_loopback host.now }
{
    is_at(host, "localhost") || is_at(host, "127.0.0.1") || is_at(host, "[::1]")
}

/// Whether the origin is that of a page which the host served.
fn is_origin_of(host: &[u8], origin: &[u8]) -> bool
    ensures { result ≡ is_origin_of (host.now ∷ []) origin.now }
{
    match origin.strip_prefix(b"http://") {
        Some(rest) => rest == host,
        None => false,
    }
}

/// Whether a page of the same origin asks, or none.
fn is_own_site(site: &[u8]) -> bool
    ensures { result ≡ is_own_site site.now }
{
    site == "same-origin".as_bytes() || site == "none".as_bytes()
}

/// Whether there is no `Host`, or one that is this machine.
fn has_own_host(buf: &[u8], headers: &[HeaderSpan]) -> bool
    requires { All (IsHeaderWithin (length buf.now)) headers.now }
    ensures { result ≡ is_none_or is_loopback (values_of (codes "host") (map (header_bytes buf.now) headers.now)) }
{
    match values_of(buf, headers, "host") {
        Values::None => true,
        Values::One(host) => is_loopback(host),
        Values::More => false,
    }
}

/// Whether there is no `Origin`, or one that is that of the one `Host`.
fn has_own_origin(buf: &[u8], headers: &[HeaderSpan]) -> bool
    requires { All (IsHeaderWithin (length buf.now)) headers.now }
    ensures { result ≡ is_none_or (is_origin_of (values_of (codes "host") (map (header_bytes buf.now) headers.now)))
        (values_of (codes "origin") (map (header_bytes buf.now) headers.now)) }
{
    match (
        values_of(buf, headers, "origin"),
        values_of(buf, headers, "host"),
    ) {
        (Values::None, _) => true,
        (Values::One(origin), Values::One(host)) => is_origin_of(host, origin),
        _ => false,
    }
}

/// Whether there is no `Sec-Fetch-Site`, or one of the same origin or of none.
fn has_own_site(buf: &[u8], headers: &[HeaderSpan]) -> bool
    requires { All (IsHeaderWithin (length buf.now)) headers.now }
    ensures { result ≡ is_none_or is_own_site
        (values_of (codes "sec-fetch-site") (map (header_bytes buf.now) headers.now)) }
{
    match values_of(buf, headers, "sec-fetch-site") {
        Values::None => true,
        Values::One(site) => is_own_site(site),
        Values::More => false,
    }
}

/// Whether a request with these headers is foreign.
pub fn is_foreign(buf: &[u8], headers: &[HeaderSpan]) -> bool
    requires { All (IsHeaderWithin (length buf.now)) headers.now }
    ensures { result ≡ is_foreign (map (header_bytes buf.now) headers.now) }
{
    !(has_own_host(buf, headers) && has_own_origin(buf, headers) && has_own_site(buf, headers))
}
