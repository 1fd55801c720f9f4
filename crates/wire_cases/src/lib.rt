//! Worked cases of the codecs: images, groups and messages.
//!
//! Tests alone, gathered above the crates that they try. A crate's own tests are proved with the whole crate once
//! more; here only the tests are.
#![tactic(auto)]

#[cfg(test)]
mod groups;
#[cfg(test)]
mod images;
#[cfg(test)]
mod messages;
