//! Reports that are asked for, and their lines.

ghost use Rattle.std.specs.Prelude.{◌≡◌, ◌↔◌, ◌⊎◌, ◌++◌, false, Err, OnOk, OnErr, IfErr, option_copied};
ghost use Rattle.treasury_reports.specs.Rows.{report_as};
ghost use Rattle.treasury_api.specs.Report.{report_rows, report_json, report_in, has_its_branch};

use crate::answers::push_pieces;
use crate::laws::lists_law;
use book_core::Ledger;
use http_request::Form;
use money_core::{Cause, Text};
use std::alloc::Global;
use std::marker::Model;
use treasury_core::State;
use treasury_reports::{
    Layout, accounts_report, balance_report_in, branches_report, commodities_report,
    journal_report_in, register_report_in, transfers_report, transit_report_in,
};
use treasury_requests::Request;

/// A report that is asked for, by its request.
#[derive(Drop)]
pub struct Report<'a> {
    pub request: &'a Request,
}

impl<'a> Model for Report<'a> {
    ghost use Rattle.std.specs.Prelude.{IsTrue};
    ghost use Rattle.treasury_requests.specs.declared.request.Request.{Request};
    ghost use Rattle.treasury_requests.specs.Request.{is_report};

    ghost Value = { Request };

    ghost view = { λ report. report.request.now };

    ghost invariant = { λ report. IsTrue (is_report report.request.now) };
}

/// The text, if there is one.
fn text_of(text: &Option<Text>) -> Option<&str>
    ensures { option_copied result ≡ text.now }
{
    match text {
        Some(text) => Some(text.as_str()),
        None => None,
    }
}

/// Appends the rows of a report, in a layout.
///
/// Refuses with 20 where the branch that it is on is not there, or with 40; the vector is then as it was.
fn push_rows<L: Ledger>(
    alloc: Global,
    state: &State<L>,
    report: &Report,
    layout: Layout,
    out: &mut Vec<u8>,
) -> Result<(), Cause>
    ensures ok { OnOk result (out.new.items ≡ out.old.items ++ report_as layout (report_rows state.now report.now)) }
    ensures unknown { (result ≡ Err Cause.UnknownBranch) ↔ (has_its_branch state.now report.now ≡ false) }
    ensures err { OnErr result (out.new.items ≡ out.old.items) }
    ensures causes { IfErr result (λ cause. (cause ≡ Cause.UnknownBranch) ⊎ (cause ≡ Cause.OutOfMemory)) }
{
    lists_law(state);
    match report.request {
        Request::Balance { branch, day } => {
            balance_report_in(alloc, state, branch.as_str(), *day, layout, out)
        }
        Request::Register {
            branch,
            account,
            tag,
            from,
        } => register_report_in(
            alloc,
            state,
            branch.as_str(),
            account.as_str(),
            text_of(tag),
            *from,
            layout,
            out,
        ),
        Request::Transit { day } => transit_report_in(alloc, state, *day, layout, out),
        Request::Journal { branch } => {
            journal_report_in(alloc, state, branch.as_str(), layout, out)
        }
        Request::Branches => branches_report(alloc, state, layout, out),
        Request::Commodities => commodities_report(alloc, state, layout, out),
        Request::Accounts { branch } => accounts_report(alloc, state, branch.as_str(), layout, out),
        Request::Transfers { day } => transfers_report(alloc, state, *day, layout, out),
        _ => unreachable!(),
    }
}

/// Appends the object of a report, a line.
///
/// Refuses as `push_rows` does; the vector is then as it was.
fn push_report_json<L: Ledger>(
    alloc: Global,
    state: &State<L>,
    report: &Report,
    out: &mut Vec<u8>,
) -> Result<(), Cause>
    ensures ok { OnOk result (out.new.items ≡ out.old.items ++ report_json state.now report.now) }
    ensures unknown { (result ≡ Err Cause.UnknownBranch) ↔ (has_its_branch state.now report.now ≡ false) }
    ensures err { OnErr result (out.new.items ≡ out.old.items) }
    ensures causes { IfErr result (λ cause. (cause ≡ Cause.UnknownBranch) ⊎ (cause ≡ Cause.OutOfMemory)) }
{
    // The rows come first, so that an unknown branch is refused whether or not there is memory.
    let mut rows = Vec::new(alloc);
    match push_rows(alloc, state, report, Layout::Json, &mut rows) {
        Ok(()) => {}
        Err(cause) => return Err(cause),
    }
    match push_pieces(&[b"{\"lines\":", rows.as_slice(), b"}\n"], out) {
        Ok(()) => Ok(()),
        Err(_) => Err(Cause::OutOfMemory),
    }
}

/// Appends what a report is answered with in this form: its lines, or the object that has its rows.
///
/// Refuses with 20 where the branch that it is on is not there, or with 40; the vector is then as it was.
pub fn push_report_in<L: Ledger>(
    alloc: Global,
    form: Form,
    state: &State<L>,
    report: &Report,
    out: &mut Vec<u8>,
) -> Result<(), Cause>
    ensures ok { OnOk result (out.new.items ≡ out.old.items ++ report_in form state.now report.now) }
    ensures unknown { (result ≡ Err Cause.UnknownBranch) ↔ (has_its_branch state.now report.now ≡ false) }
    ensures err { OnErr result (out.new.items ≡ out.old.items) }
    ensures causes { IfErr result (λ cause. (cause ≡ Cause.UnknownBranch) ⊎ (cause ≡ Cause.OutOfMemory)) }
{
    match form {
        Form::Text => push_rows(alloc, state, report, Layout::Text, out),
        Form::Json => push_report_json(alloc, state, report, out),
    }
}
