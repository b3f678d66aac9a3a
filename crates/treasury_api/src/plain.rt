//! The line of a plain refusal.

ghost use Rattle.std.specs.Prelude.{◌≡◌, ◌≤◌, ◌++◌, length, codes};
ghost use Rattle.treasury_api.specs.Answer.{refused_text};

use crate::answers::MOST_PLAIN;
use money_core::Cause;

/// The line of a refusal by its cause alone, which takes no memory.
#[tactic(auto, unfolding(crate::proofs::PlainLemmas::on_numerals))]
pub fn plain_line(cause: Cause) -> &'static [u8]
    ensures line { result.now ≡ refused_text cause ++ codes "\n" }
    ensures short { length result.now ≤ MOST_PLAIN }
{
    match cause {
        Cause::Utf8 => b"refused 1 Utf8\n",
        Cause::TooLong => b"refused 2 TooLong\n",
        Cause::Date => b"refused 3 Date\n",
        Cause::Header => b"refused 4 Header\n",
        Cause::Directive => b"refused 5 Directive\n",
        Cause::StrayLine => b"refused 6 StrayLine\n",
        Cause::Account => b"refused 7 Account\n",
        Cause::Amount => b"refused 8 Amount\n",
        Cause::UnknownCommodity => b"refused 9 UnknownCommodity\n",
        Cause::Decimals => b"refused 10 Decimals\n",
        Cause::CommodityStyle => b"refused 11 CommodityStyle\n",
        Cause::Cost => b"refused 12 Cost\n",
        Cause::CostNotExact => b"refused 13 CostNotExact\n",
        Cause::Assignment => b"refused 14 Assignment\n",
        Cause::Virtual => b"refused 15 Virtual\n",
        Cause::Marks => b"refused 16 Marks\n",
        Cause::TwoBlanks => b"refused 17 TwoBlanks\n",
        Cause::Unbalanced => b"refused 18 Unbalanced\n",
        Cause::UnknownBranch => b"refused 20 UnknownBranch\n",
        Cause::BranchName => b"refused 21 BranchName\n",
        Cause::CommodityExists => b"refused 22 CommodityExists\n",
        Cause::Full => b"refused 23 Full\n",
        Cause::MarkClash => b"refused 24 MarkClash\n",
        Cause::ReservedMark => b"refused 25 ReservedMark\n",
        Cause::ReservedAccount => b"refused 26 ReservedAccount\n",
        Cause::Locked => b"refused 27 Locked\n",
        Cause::Limit => b"refused 28 Limit\n",
        Cause::ClaimFailed => b"refused 29 ClaimFailed\n",
        Cause::SameBranch => b"refused 30 SameBranch\n",
        Cause::UnknownTransfer => b"refused 31 UnknownTransfer\n",
        Cause::WrongBranch => b"refused 32 WrongBranch\n",
        Cause::AlreadyReceived => b"refused 33 AlreadyReceived\n",
        Cause::TooEarly => b"refused 34 TooEarly\n",
        Cause::LockBack => b"refused 35 LockBack\n",
        Cause::NothingToClose => b"refused 36 NothingToClose\n",
        Cause::BadAccount => b"refused 37 BadAccount\n",
        Cause::BadAmount => b"refused 38 BadAmount\n",
        Cause::BadId => b"refused 39 BadId\n",
        Cause::OutOfMemory => b"refused 40 OutOfMemory\n",
        Cause::Store => b"refused 41 Store\n",
        Cause::Closed => b"refused 42 Closed\n",
        Cause::Damaged => b"refused 43 Damaged\n",
        Cause::Request => b"refused 44 Request\n",
        Cause::ReadFault => b"refused 45 ReadFault\n",
        Cause::WriteFault => b"refused 46 WriteFault\n",
        Cause::TooMuch => b"refused 47 TooMuch\n",
        Cause::Changed => b"refused 48 Changed\n",
    }
}
