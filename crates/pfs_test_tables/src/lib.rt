//! Tests of texts, digests, events, classes, SQL, the rows of tables and a phase's end, by public calls alone.
#![tactic(auto)]

#[cfg(test)]
mod asserts;
#[cfg(test)]
mod catalogue;
#[cfg(test)]
mod classes;
#[cfg(test)]
mod digest;
#[cfg(test)]
mod event;
#[cfg(test)]
mod exec;
#[cfg(test)]
mod finals;
#[cfg(test)]
mod generated;
#[cfg(test)]
mod lexer;
#[cfg(test)]
mod matching;
#[cfg(test)]
mod outside;
#[cfg(test)]
mod putting;
#[cfg(test)]
mod settings;
#[cfg(test)]
mod setups;
#[cfg(test)]
mod show;
#[cfg(test)]
mod sql;
#[cfg(test)]
mod summaries;
#[cfg(test)]
mod tables;
#[cfg(test)]
mod text;
