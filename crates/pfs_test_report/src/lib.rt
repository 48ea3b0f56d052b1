//! Tests of scripts, reports and the top calls, by public calls alone.
#![tactic(auto)]

#[cfg(test)]
mod asserts;
#[cfg(test)]
mod journal;
#[cfg(test)]
mod script;
#[cfg(test)]
mod top;
