//! Tests of actors and of their root over a board that keeps a desk, by public calls.
#![tactic(auto)]

#[cfg(test)]
mod asserts;
#[cfg(test)]
mod gates;
#[cfg(test)]
mod refusals;
#[cfg(test)]
mod sessions;
#[cfg(test)]
mod settlements;
#[cfg(test)]
mod tables;
