//! Worked cases of journals.
//!
//! Tests alone, gathered above the crate that they try.
#![tactic(auto)]

#[cfg(test)]
mod journals;
