//! Commands of a branch.

ghost use Rattle.std.specs.Prelude.{◌≡◌};
ghost use Rattle.treasury_api.specs.BranchCommand.{is_command_of};

use treasury_requests::Request;

/// Whether the request is a command of the branch of that name: an import into it, a dispatch from it, a receipt by
/// it, its lock or its closing.
pub fn is_command_of(request: &Request, name: &str) -> bool
    ensures { result ≡ is_command_of name.now request.now }
{
    match request.branch() {
        Some(branch) => branch.as_str() == name,
        None => false,
    }
}
