//! JSON texts of texts: strings, arrays of strings, and objects that have these, each appended to a vector.
#![tactic(auto)]

mod array;
mod bytes;
mod law;
mod object;
mod string;

pub use array::{push_array, push_lines, push_strings};
pub use law::json_law;
pub use object::{Member, MemberValue, push_object};
pub use string::push_string;
