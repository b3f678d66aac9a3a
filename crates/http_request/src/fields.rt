//! The fields of a head, by their names.

ghost use Rattle.std.specs.Prelude.{◌≡◌, length, map, All};
ghost use Rattle.httparse.specs.Spans.{IsHeaderWithin, header_bytes};
ghost use Rattle.http_request.specs.Fields.{is_named, values_of};
ghost use Rattle.http_request.specs.Found.{AreValues};

use httparse::spans::HeaderSpan;

/// The values of the fields of one name.
#[derive(Clone, Copy, Debug)]
pub enum Values<'b> {
    None,
    One(&'b [u8]),
    More,
}

/// Whether that is the name, in whatever case.
pub fn is_named(given: &[u8], name: &str) -> bool
    ensures { result ≡ is_named name.now given.now }
{
    given.eq_ignore_ascii_case(name.as_bytes())
}

/// The values of the fields of a name.
pub fn values_of<'b>(buf: &'b [u8], headers: &[HeaderSpan], name: &str) -> Values<'b>
    requires { All (IsHeaderWithin (length buf.now)) headers.now }
    ensures { AreValues result (values_of name.now (map (header_bytes buf.now) headers.now)) }
{
    match headers.split_first() {
        None => Values::None,
        Some((first, rest)) => {
            let others = values_of(buf, rest, name);
            if is_named(first.name.of(buf), name) {
                match others {
                    Values::None => Values::One(first.value.of(buf)),
                    _ => Values::More,
                }
            } else {
                others
            }
        }
    }
}
