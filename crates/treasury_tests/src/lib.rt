//! The tests of the treasury's libraries, by their public calls.
#![tactic(auto)]

#[cfg(test)]
mod machine;
#[cfg(test)]
mod marks;
#[cfg(test)]
mod memory;
#[cfg(test)]
mod store;
