//! What answers requests, one after another.

ghost use Rattle.std.specs.Prelude.{List, ℕ};
ghost use Rattle.std.specs.Cow.{cow_slice_items};

use crate::listener::Listener;
use std::alloc::Global;
use std::borrow::CowSlice;

/// What answers requests.
pub trait Machine {
    /// The state before a request, the bytes of its line, its answer, and the state after it.
    ghost step: { Self → List ℕ → List ℕ → Self → Type 0 };

    /// The answer to a request, which is no line of blanks alone. The listener hears of it, and has no part in it.
    fn answer<L: Listener>(
        &mut self,
        alloc: Global,
        request: &[u8],
        listener: &mut L,
    ) -> CowSlice<'static, u8>
        ensures { step self.old request.now (cow_slice_items result) self.new };
}
