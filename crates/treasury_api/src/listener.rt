//! What hears of a run, beside its answers.
//!
//! No clause speaks of the listener, so one proof shows that what a run answers and keeps does not depend on who hears
//! of it. That what is explained is true, and that the number is that of the line, is shown by sessions.

use crate::telling::Grounds;
use book_core::{DayLedger, Refusal};
use money_core::Cause;
use std::alloc::Global;
use treasury_core::State;
use treasury_requests::Spelled;

/// Hears of each line of a run, and of what it is answered. It has no part in the answers.
pub trait Listener {
    /// A line begins, which may have blanks alone.
    fn begin_line(&mut self);

    /// The request was answered, with a refusal or without. The state is the one after it, and is lent if memory holds
    /// it.
    fn tell(
        &mut self,
        alloc: Global,
        state: Option<&State<DayLedger>>,
        request: &Spelled,
        grounds: &Grounds,
        refusal: Option<&Refusal>,
    );

    /// The line of these bytes was refused by this cause before it could ask for anything.
    fn tell_unasked(&mut self, alloc: Global, line: &[u8], cause: Cause);

    /// The answer to the request of the line is written.
    fn end_line(&mut self);
}

/// No one hears of the run.
#[derive(Clone, Copy, Debug)]
pub struct NoListener;

impl Listener for NoListener {
    fn begin_line(&mut self) {}

    fn tell(
        &mut self,
        _alloc: Global,
        _state: Option<&State<DayLedger>>,
        _request: &Spelled,
        _grounds: &Grounds,
        _refusal: Option<&Refusal>,
    ) {}

    fn tell_unasked(&mut self, _alloc: Global, _line: &[u8], _cause: Cause) {}

    fn end_line(&mut self) {}
}
