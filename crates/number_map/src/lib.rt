//! Values under numbers in an ordered map, which contracts see as a finite map: what a node keeps of each writer.
#![tactic(auto)]

mod map;

pub use map::NumberMap;
