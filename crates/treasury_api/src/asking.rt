//! What a request asks, once its texts are read: a command, or a report.

ghost use Rattle.std.specs.Prelude.{◌≡◌, Ok, IfOk, option_map};
ghost use Rattle.std.specs.Result.{IsOkUnless};
ghost use Rattle.money_core.specs.Sampling.{style_of};
ghost use Rattle.money_core.specs.Reading.{amount};
ghost use Rattle.journal_lines.specs.Date.{IsDayNumber};
ghost use Rattle.treasury_core.specs.Fits.{Fits};
ghost use Rattle.treasury_core.specs.Step.{reply};
ghost use Rattle.treasury_api.specs.Asked.{asked_by_sample, asked_by_amount, asked_by_part, asked_by_receipt, cut_list};
ghost use Rattle.treasury_api.specs.Asked.{JournalAsks, RequestAsks, SpelledAsks, or_dry_run};
ghost use Rattle.treasury_api.specs.Asked.{entries_asked, is_another, is_change, has_changed, unless_changed};
ghost use Rattle.treasury_requests.specs.Request.{HasDayNumbers};
ghost use Rattle.treasury_api.specs.Serving.{IsReady, OrMemory};

use crate::report::Report;
use book_core::{Ledger, Refusal};
use journal_format::read_journal;
use money_core::{Cause, Copied, Day, Items, Styles, Text, read_amount, read_style};
use std::alloc::Global;
use treasury_core::{Answer, AskedPart, Choice, Close, Command, Dispatch, Receive, State, foresee};
use treasury_requests::{Request, Spelled, WrittenPart};
use treasury_state::find_branch;

/// What is asked of the treasury.
#[derive(Drop)]
pub enum Asked<'a> {
    Command(Command),
    /// What the command would be answered; it is not performed.
    DryRun(Command),
    Report(Report<'a>),
}

/// Want of memory.
const NO_MEMORY: Refusal = Refusal::Plain(Cause::OutOfMemory);

/// An equal text.
fn own(text: &Text) -> Result<Text, Refusal>
    ensures equal { IfOk result (λ copy. copy ≡ text.now) }
    ensures memory { IsOkUnless result (Refusal.Plain Cause.OutOfMemory) }
{
    match text.copy() {
        Ok(copy) => Ok(copy),
        Err(_) => Err(NO_MEMORY),
    }
}

/// An equal text, if there is one.
fn own_if_given(text: &Option<Text>) -> Result<Option<Text>, Refusal>
    ensures equal { IfOk result (λ copy. copy ≡ text.now) }
    ensures memory { IsOkUnless result (Refusal.Plain Cause.OutOfMemory) }
{
    match text {
        Some(text) => {
            let copy = own(text)?;
            Ok(Some(copy))
        }
        None => Ok(None),
    }
}

/// Asks for a commodity in the style that the sample spells.
fn asked_by_sample(alloc: Global, styles: &Styles, sample: &str) -> Result<Asked<'static>, Refusal>
    ensures asks { OrMemory (λ asked. asked ≡ asked_by_sample (style_of sample.now)) result }
    ensures ready { IsReady styles.now result }
{
    match read_style(alloc, sample) {
        Ok(style) => Ok(Asked::Command(Command::Commodity(style))),
        Err(Cause::OutOfMemory) => Err(NO_MEMORY),
        Err(_) => Err(Refusal::Plain(Cause::Amount)),
    }
}

/// Asks to enter the transactions that the journal's text has. It is read where it stands, since it may be most of what
/// memory holds.
fn asked_by_journal(
    alloc: Global,
    styles: &Styles,
    name: &Text,
    journal: &[u8],
) -> Result<Asked<'static>, Refusal>
    ensures asks { OrMemory (JournalAsks styles.now name.now journal.now) result }
    ensures ready { IsReady styles.now result }
{
    let name = own(name)?;
    match read_journal(alloc, journal, styles) {
        Ok(list) => Ok(Asked::Command(Command::Enter(name, Items::from_vec(list)))),
        Err(fault) => match fault.cause {
            Cause::OutOfMemory => Err(NO_MEMORY),
            _ => Err(Refusal::Text(fault)),
        },
    }
}

/// Asks for a dispatch of the amount that the text is.
fn asked_by_amount(
    styles: &Styles,
    id: &Text,
    from: &Text,
    to: &Text,
    day: Day,
    text: &str,
    account: &Text,
) -> Result<Asked<'static>, Refusal>
    requires { IsDayNumber day }
    ensures asks { OrMemory (λ asked. asked ≡ asked_by_amount id.now from.now to.now day account.now
        (amount styles.now text.now)) result }
    ensures ready { IsReady styles.now result }
{
    let id = own(id)?;
    let source = own(from)?;
    let target = own(to)?;
    let account = own(account)?;
    match read_amount(text, styles) {
        Ok((unit, qty)) => Ok(Asked::Command(Command::Dispatch(Dispatch {
            id,
            source,
            target,
            day,
            unit,
            qty,
            account,
        }))),
        Err(cause) => Err(Refusal::Plain(cause)),
    }
}

/// Asks for a receipt of a part, of the amount that its text is.
fn asked_by_part(
    styles: &Styles,
    id: Text,
    branch: Text,
    day: Day,
    account: Text,
    part: &WrittenPart,
) -> Result<Asked<'static>, Refusal>
    requires { IsDayNumber day }
    ensures asks { OrMemory (λ asked. asked ≡ asked_by_part id branch day account part.now.key
        (amount styles.now part.now.amount)) result }
    ensures ready { IsReady styles.now result }
{
    let key = own(&part.key)?;
    match read_amount(part.amount.as_str(), styles) {
        Ok((unit, qty)) => Ok(Asked::Command(Command::Receive(Receive {
            id,
            branch,
            day,
            account,
            part: Some(AskedPart { key, unit, qty }),
        }))),
        Err(cause) => Err(Refusal::Plain(cause)),
    }
}

/// Asks for a receipt of all that is left, or of a part.
fn asked_by_receipt(
    styles: &Styles,
    id: &Text,
    branch: &Text,
    day: Day,
    account: &Text,
    part: &Option<WrittenPart>,
) -> Result<Asked<'static>, Refusal>
    requires { IsDayNumber day }
    ensures asks { OrMemory (λ asked. asked ≡ asked_by_receipt styles.now id.now branch.now day account.now part.now)
        result }
    ensures ready { IsReady styles.now result }
{
    let id = own(id)?;
    let branch = own(branch)?;
    let account = own(account)?;
    match part {
        Some(part) => asked_by_part(styles, id, branch, day, account, part),
        None => Ok(Asked::Command(Command::Receive(Receive {
            id,
            branch,
            day,
            account,
            part: None,
        }))),
    }
}

/// A list, cut at each `;`.
fn cut_list(alloc: Global, text: &str) -> Result<Items<Text>, Cause>
    ensures value { IfOk result (λ names. names ≡ cut_list text.now) }
    ensures memory { IsOkUnless result Cause.OutOfMemory }
{
    let mut names = Items::empty(alloc);
    let mut rest = text;
    'names: while let Some((name, more)) = rest.split_once(';') {
        let name = Text::of(alloc, name)?;
        names.push(name)?;
        rest = more;
    }
    let last = Text::of(alloc, rest)?;
    names.push(last)?;
    Ok(names)
}

/// A list that is given, cut at each `;`.
fn cut_if_given(alloc: Global, text: &Option<Text>) -> Result<Option<Items<Text>>, Cause>
    ensures value { IfOk result (λ names. names ≡ option_map cut_list text.now) }
    ensures memory { IsOkUnless result Cause.OutOfMemory }
{
    match text {
        Some(text) => {
            let names = cut_list(alloc, text.as_str())?;
            Ok(Some(names))
        }
        None => Ok(None),
    }
}

/// What a closing is of: the accounts that are listed, and the one that it goes into, each where it is given.
fn choice_of(alloc: Global, accounts: &Option<Text>, into: &Option<Text>) -> Result<Choice, Refusal>
    ensures value { IfOk result
        (λ choice. choice ≡ record { accounts = option_map cut_list accounts.now; into = into.now }) }
    ensures memory { IsOkUnless result (Refusal.Plain Cause.OutOfMemory) }
{
    let into = own_if_given(into)?;
    match cut_if_given(alloc, accounts) {
        Ok(accounts) => Ok(Choice { accounts, into }),
        Err(_) => Err(NO_MEMORY),
    }
}

/// What the request asks, if it is no dry run; or the first fault of its texts; 40 for want of memory.
fn asked_by_request<'a>(
    alloc: Global,
    styles: &Styles,
    request: &'a Request,
) -> Result<Asked<'a>, Refusal>
    requires { HasDayNumbers request.now }
    ensures asks { OrMemory (RequestAsks styles.now request.now) result }
    ensures ready { IsReady styles.now result }
{
    match request {
        Request::Branch { name } => Ok(Asked::Command(Command::Branch(own(name)?))),
        Request::Commodity { sample } => asked_by_sample(alloc, styles, sample.as_str()),
        Request::Import { branch, journal } => {
            asked_by_journal(alloc, styles, branch, journal.as_bytes())
        }
        Request::Dispatch {
            id,
            from,
            to,
            day,
            amount,
            account,
        } => asked_by_amount(styles, id, from, to, *day, amount.as_str(), account),
        Request::Receive {
            id,
            branch,
            day,
            account,
            part,
        } => asked_by_receipt(styles, id, branch, *day, account, part),
        Request::Lock { branch, day } => Ok(Asked::Command(Command::Lock(own(branch)?, *day))),
        Request::Close {
            branch,
            day,
            accounts,
            into,
        } => {
            let close = Close {
                branch: own(branch)?,
                day: *day,
                choice: choice_of(alloc, accounts, into)?,
            };
            Ok(Asked::Command(Command::Close(close)))
        }
        _ => Ok(Asked::Report(Report { request })),
    }
}

/// What is asked, or the dry run of it.
fn or_dry_run(is_dry_run: bool, asked: Asked) -> Asked
    ensures { Ok result ≡ or_dry_run is_dry_run (Ok asked.entry) }
{
    if !is_dry_run {
        return asked;
    }
    match asked {
        Asked::Command(command) => Asked::DryRun(command),
        Asked::DryRun(command) => Asked::DryRun(command),
        Asked::Report(report) => Asked::Report(report),
    }
}

/// How many entries the branch has on whose book the request is a command, if it is there.
pub fn entries_asked<L: Ledger>(state: &State<L>, request: &Request) -> Option<usize>
    ensures { result ≡ entries_asked state.now request.now }
{
    let branch = find_branch(state, request.branch()?.as_str())?;
    Some(branch.records.items().len())
}

/// Whether the command would change something.
fn would_change<L: Ledger>(
    alloc: Global,
    state: &State<L>,
    command: &Command,
) -> Result<bool, Refusal>
    requires { Fits state.now.styles command.now }
    ensures value { IfOk result (λ changes. changes ≡ is_change (reply state.now command.now)) }
    ensures memory { IsOkUnless result (Refusal.Plain Cause.OutOfMemory) }
{
    match foresee(alloc, state, command) {
        Ok(Answer::Done) => Ok(true),
        Ok(Answer::Entered { new, .. }) => Ok(new > 0),
        Ok(Answer::Repeated) => Ok(false),
        Err(Refusal::Plain(Cause::OutOfMemory)) => Err(NO_MEMORY),
        Err(_) => Ok(false),
    }
}

/// Whether another count of entries is expected than there is.
fn is_another(expected: Option<u32>, count: Option<usize>) -> bool
    ensures { result ≡ is_another expected count }
{
    match (expected, count) {
        (Some(expected), Some(count)) => count != expected as usize,
        _ => false,
    }
}

/// Whether the branch has changed since the command was shown.
fn has_changed<L: Ledger>(
    alloc: Global,
    state: &State<L>,
    request: &Spelled,
    command: &Command,
) -> Result<bool, Refusal>
    requires { Fits state.now.styles command.now }
    ensures value { IfOk result (λ changed. changed ≡ has_changed state.now request.now command.now) }
    ensures memory { IsOkUnless result (Refusal.Plain Cause.OutOfMemory) }
{
    let count = entries_asked(state, &request.request);
    if is_another(request.terms.if_entries, count) {
        would_change(alloc, state, command)
    } else {
        Ok(false)
    }
}

/// What is asked, where the branch has not changed since it was shown.
fn unless_changed<'a, L: Ledger>(
    alloc: Global,
    state: &State<L>,
    request: &Spelled,
    asked: Asked<'a>,
) -> Result<Asked<'a>, Refusal>
    requires { IsReady state.now.styles (Ok asked) }
    ensures asks { OrMemory (λ kept. kept ≡ unless_changed state.now request.now (Ok asked.entry)) result }
    ensures ready { IsReady state.now.styles result }
{
    match asked {
        Asked::Command(command) => {
            if has_changed(alloc, state, request, &command)? {
                Err(Refusal::Plain(Cause::Changed))
            } else {
                Ok(Asked::Command(command))
            }
        }
        Asked::DryRun(command) => Ok(Asked::DryRun(command)),
        Asked::Report(report) => Ok(Asked::Report(report)),
    }
}

/// What the request asks in this state, on its terms: a command that fits the commodities, to be performed or as a dry
/// run, or a report. Or the first fault of its texts; 48 where its branch has changed; 40 for want of memory. Each of
/// these refusals can be printed.
pub fn asked_by<'a, L: Ledger>(
    alloc: Global,
    state: &State<L>,
    request: &'a Spelled,
) -> Result<Asked<'a>, Refusal>
    requires { HasDayNumbers request.now.request }
    ensures asks { OrMemory (SpelledAsks state.now request.now) result }
    ensures ready { IsReady state.now.styles result }
{
    match asked_by_request(alloc, state.styles(), &request.request) {
        Ok(asked) => match unless_changed(alloc, state, request, asked) {
            Ok(asked) => Ok(or_dry_run(request.terms.is_dry_run, asked)),
            Err(refusal) => Err(refusal),
        },
        Err(refusal) => Err(refusal),
    }
}
