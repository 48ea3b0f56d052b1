//! Tests of runs whose sessions go on at once, by public calls alone.
#![tactic(auto)]

#[cfg(test)]
mod asserts;
#[cfg(test)]
mod counts;
#[cfg(test)]
mod gates;
#[cfg(test)]
mod orders;
#[cfg(test)]
mod runs;
#[cfg(test)]
mod truncations;
