//! What becomes of a treasury whose input, output or disk fails, by public calls.
#![tactic(auto)]

#[cfg(test)]
mod desk;
#[cfg(test)]
mod ends;
#[cfg(test)]
mod rows;
#[cfg(test)]
mod stops;
