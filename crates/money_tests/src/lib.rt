//! Tests of `money_core`, by its public calls.
#![tactic(auto)]

#[cfg(test)]
mod amount_text;
#[cfg(test)]
mod cost;
#[cfg(test)]
mod fixture;
#[cfg(test)]
mod growth;
#[cfg(test)]
mod items;
#[cfg(test)]
mod length;
#[cfg(test)]
mod price_text;
#[cfg(test)]
mod reading;
#[cfg(test)]
mod same;
#[cfg(test)]
mod sample;
#[cfg(test)]
mod style;
#[cfg(test)]
mod styles;
#[cfg(test)]
mod symbol;
