//! Tests of the judge of reports, by public calls alone.
#![tactic(auto)]

#[cfg(test)]
mod answers;
#[cfg(test)]
mod caused;
#[cfg(test)]
mod causes;
#[cfg(test)]
mod cut;
#[cfg(test)]
mod judged;
#[cfg(test)]
mod lost;
#[cfg(test)]
mod misfits;
#[cfg(test)]
mod rings;
#[cfg(test)]
mod seen;
#[cfg(test)]
mod selects;
#[cfg(test)]
mod visits;
