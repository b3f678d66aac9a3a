//! The command line as a request: the words that the program knows, and what each asks for by its values.
#![tactic(auto)]

mod help;
mod known;
mod reading;
mod spelling;

pub use known::known_words;
pub use reading::read_words;
pub use spelling::{
    fault_of, is_explained, port_of, request_of_word, says_no_count, terms_of, value_of,
};
