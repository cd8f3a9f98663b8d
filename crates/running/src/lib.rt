// Running words and lines on the table in a file.
#![tactic(auto)]

pub mod plan;
pub mod words;
