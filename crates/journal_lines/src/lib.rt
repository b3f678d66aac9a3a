//! The lines of a journal and their parts: dates, headers, account names, tags.
#![tactic(auto)]

mod account;
mod blank;
mod comment;
mod date;
mod header;
mod line_kind;
mod lines;
mod number;
mod printed;
mod tag;

pub use account::{MAX_NAME, is_account, is_reserved, name_end};
pub use blank::{first_word, is_blank, trim, trim_end, trim_start};
pub use comment::{comment_of, front_of, tags};
pub use date::{is_day_number, print_date, read_date};
pub use header::{
    Header, MAX_CODE, MAX_COMMENT, MAX_DESCRIPTION, Status, behind_status, read_header, status_at,
};
pub use line_kind::{LineKind, is_block_end, is_remark, kind};
pub use lines::Lines;
pub use money_core::{Cause, Day};
pub use number::read_count;
pub use printed::{
    comment_len, header_len, is_clean, is_code, is_comment, is_description, print_comment,
    print_header,
};
pub use tag::Tags;
