//! The routes, and the one that a method and a path lead to.

ghost use Rattle.std.specs.Prelude.{◌≡◌, ◌<◌, ◌==◌, ◌∷◌, ℕ, List, Ok, None, IfOk, MatchOption, option_copied, map};
ghost use Rattle.std.specs.Result.{IsOkUnless};
ghost use Rattle.std.specs.List.{slice_split};
ghost use Rattle.http_header.specs.Token.{IsToken};
ghost use Rattle.http_request.specs.Routes.{pieces_at, parts_given, paths_given, command_at, report_at, route_by};
ghost use Rattle.http_request.specs.Routes.{route_of};
ghost use Rattle.http_request.specs.Rows.{path_rows};

use http::Method;
use http::method::MethodError;
use matchit::{InsertError, Router};
use money_core::{Cause, Items, Text};
use std::alloc::Global;
use treasury_requests::{Given, Key, Word, word_named};

/// Where a method and a path lead.
#[derive(Debug, Drop)]
pub enum Route {
    /// To commands; only to those of a branch, where the path names one.
    Commands { branch: Option<Text> },
    /// To a report, of which the path gives this.
    Report { word: Word, given: Items<Given> },
}

/// A router with the shapes of all paths.
///
/// It is made for each request, so it does not hold the routes themselves: they would cost many times as much.
fn make_router(alloc: Global) -> Result<Router<()>, InsertError>
    ensures { IfOk result (λ router. router ≡ path_rows) }
{
    let mut router = Router::new(alloc);
    router.insert("/{name}", ())?;
    router.insert("/{name}/{*parts}", ())?;
    Ok(router)
}

/// The text up to the first byte of this value, and what stands behind that byte, if it is there.
pub fn cut<'t>(text: &'t str, at: u8) -> (&'t str, Option<&'t str>)
    requires { at < 128 }
    ensures { slice_split (λ b. b == at) text.now ≡ result.0.now ∷ pieces_at at (option_copied result.1) }
{
    match text.split_once(char::from(at)) {
        Some((first, rest)) => (first, Some(rest)),
        None => (text, None),
    }
}

/// What the parts of a path give at these keys, beside what is given; `None` where there are more or fewer, or one is
/// empty.
fn parts_given(
    alloc: Global,
    keys: &[Key],
    parts: Option<&str>,
    given: Items<Given>,
) -> Result<Option<Items<Given>>, Cause>
    ensures value { IfOk result
        (λ found. found ≡ parts_given given keys.now (pieces_at 47 (option_copied parts.entry))) }
    ensures memory { IsOkUnless result Cause.OutOfMemory }
{
    match keys.split_first() {
        None => match parts {
            None => Ok(Some(given)),
            Some(_) => Ok(None),
        },
        Some((key, keys)) => {
            let Some(parts) = parts else {
                return Ok(None);
            };
            let (part, parts) = cut(parts, b'/');
            if part.is_empty() {
                return Ok(None);
            }
            let text = Text::of(alloc, part)?;
            let mut given = given;
            given.push(Given { key: *key, text })?;
            parts_given(alloc, keys, parts, given)
        }
    }
}

/// What the parts of a path give at the keys of the first of these paths that has as many.
fn paths_given(
    alloc: Global,
    paths: &[&[Key]],
    parts: Option<&str>,
) -> Result<Option<Items<Given>>, Cause>
    ensures value { IfOk result (λ found.
        found ≡ paths_given (map (λ path. path.now) paths.now) (pieces_at 47 (option_copied parts.entry))) }
    ensures memory { IsOkUnless result Cause.OutOfMemory }
{
    match paths.split_first() {
        Some((path, paths)) => match parts_given(alloc, path, parts, Items::empty(alloc)) {
            Ok(None) => paths_given(alloc, paths, parts),
            found => found,
        },
        None => Ok(None),
    }
}

/// The route of commands with these parts of a path: none, or a branch.
fn command_at(alloc: Global, parts: Option<&str>) -> Result<Option<Route>, Cause>
    ensures value { IfOk result (λ route. route ≡ command_at (pieces_at 47 (option_copied parts.entry))) }
    ensures memory { IsOkUnless result Cause.OutOfMemory }
{
    let Some(parts) = parts else {
        return Ok(Some(Route::Commands { branch: None }));
    };
    match cut(parts, b'/') {
        (branch, None) => {
            if branch.is_empty() {
                return Ok(None);
            }
            let branch = Text::of(alloc, branch)?;
            Ok(Some(Route::Commands {
                branch: Some(branch),
            }))
        }
        (_, Some(_)) => Ok(None),
    }
}

/// The route of the report of that name with these parts of a path.
fn report_at(alloc: Global, name: &str, parts: Option<&str>) -> Result<Option<Route>, Cause>
    ensures value { IfOk result (λ route. route ≡ report_at name.now (pieces_at 47 (option_copied parts.entry))) }
    ensures memory { IsOkUnless result Cause.OutOfMemory }
{
    let Some(word) = word_named(name) else {
        return Ok(None);
    };
    match paths_given(alloc, word.row().paths, parts) {
        Ok(Some(given)) => Ok(Some(Route::Report { word, given })),
        Ok(None) => Ok(None),
        Err(cause) => Err(cause),
    }
}

/// The route of a method and a path of that name with these parts.
fn route_by(
    alloc: Global,
    method: &Method,
    name: &str,
    parts: Option<&str>,
) -> Result<Option<Route>, Cause>
    ensures value { IfOk result
        (λ route. route ≡ route_by method.now name.now (pieces_at 47 (option_copied parts.entry))) }
    ensures memory { IsOkUnless result Cause.OutOfMemory }
{
    if method.as_str() == "POST" && name == "commands" {
        command_at(alloc, parts)
    } else if method.as_str() == "GET" {
        report_at(alloc, name, parts)
    } else {
        Ok(None)
    }
}

/// The name of a path, and its parts, if it has some; `None` only where no method leads anywhere with it.
fn name_and_parts<'p>(router: &Router<()>, path: &'p str) -> Option<(&'p str, Option<&'p str>)>
    requires { router.now ≡ path_rows }
    ensures { MatchOption result ((method : List ℕ) → route_of method path.now ≡ None) (λ cut. (method : List ℕ)
        → route_of method path.now ≡ route_by method cut.0.now (pieces_at 47 (option_copied cut.1))) }
{
    match router.at(path) {
        Ok(found) => match found.params.get("name") {
            Some(name) => Some((name, found.params.get("parts"))),
            None => None,
        },
        Err(_) => None,
    }
}

/// The route that a method and a path lead to, if there is one.
pub fn find_route(alloc: Global, method: &[u8], path: &str) -> Result<Option<Route>, Cause>
    ensures value { IfOk result (λ route. route ≡ route_of method.now path.now) }
    // What is no method leads nowhere, whether or not there is memory.
    ensures token { (IsToken method.now → ⊥) → result ≡ Ok None }
    ensures memory { IsOkUnless result Cause.OutOfMemory }
{
    let method = match Method::from_bytes(alloc, method) {
        Ok(method) => method,
        // One that is no token has no route.
        Err(MethodError::Invalid) => return Ok(None),
        Err(MethodError::OutOfMemory) => return Err(Cause::OutOfMemory),
    };
    let router = match make_router(alloc) {
        Ok(router) => router,
        // The shapes stand beside one another, so it is memory that lacks.
        Err(_) => return Err(Cause::OutOfMemory),
    };
    match name_and_parts(&router, path) {
        Some((name, parts)) => route_by(alloc, &method, name, parts),
        None => Ok(None),
    }
}
