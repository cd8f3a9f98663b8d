// The table file: its refusals, the one judgement of it, its fields, and the table that stands in them.
#![tactic(auto)]

pub mod answer;
pub mod fields;
pub mod judging;
pub mod reading;
pub mod tables;
