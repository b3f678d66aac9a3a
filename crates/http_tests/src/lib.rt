//! Tests of HTTP over a treasury, by `serve_one`.
#![tactic(auto)]

#[cfg(test)]
mod cuts;
#[cfg(test)]
mod desk;
