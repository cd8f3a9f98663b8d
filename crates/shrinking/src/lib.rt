// The shrunk file.
#![tactic(auto)]

pub mod reaching;
pub mod rows;
pub mod shrinks;
pub mod writing;
