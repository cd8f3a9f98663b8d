// The word that tells two states apart.
#![tactic(auto)]

pub mod climbing;
pub mod words;
pub mod writing;
