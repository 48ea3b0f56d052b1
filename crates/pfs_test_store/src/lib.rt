//! Tests of the board, the setup words, the tickets, the stores, the administration and sessions, by public calls.
#![tactic(auto)]

#[cfg(test)]
mod actions;
#[cfg(test)]
mod actors;
#[cfg(test)]
mod admin;
#[cfg(test)]
mod asserts;
#[cfg(test)]
mod board;
#[cfg(test)]
mod containers;
#[cfg(test)]
mod levels;
#[cfg(test)]
mod seated;
#[cfg(test)]
mod seats;
#[cfg(test)]
mod sessions;
#[cfg(test)]
mod stories;
#[cfg(test)]
mod switches;
#[cfg(test)]
mod tickets;
