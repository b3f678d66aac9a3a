//! The path of a request's target.

ghost use Rattle.std.specs.Prelude.{◌≡◌};
ghost use Rattle.http_request.specs.Path.{path_of};

/// The target up to its first question mark.
pub fn path_of(target: &str) -> &str
    ensures { result.now ≡ path_of target.now }
{
    match target.split_once('?') {
        Some((path, _query)) => path,
        None => target,
    }
}
