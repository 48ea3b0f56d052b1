//! Why a summary row shows just the events that count there, over all interleavings: the conservation law, from
//! printed changes of rows on, with the whole fold of connects, quits and truncations. The definitions stand in
//! `specs/`; no code of the engine is spoken of.
#![tactic(auto)]

pub mod laws;
