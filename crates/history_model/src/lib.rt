//! The history of a run, as definitions: what was read and logged in the order of the steps, with a bound
//! of the causes of each entry; the images and the rows at a cut of it; and what a close removes.
//!
//! It knows no node and no message. What follows from a history alone stands in `history_laws`.
#![tactic(auto)]
