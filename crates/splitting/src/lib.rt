// Classes by splitting: the fresh lists, and runs of takes.
#![tactic(auto)]

pub mod copies;
pub mod hits;
pub mod lists;
pub mod parts;
pub mod rooms;
pub mod runs;
pub mod starts;
pub mod taking;
