// Classes by layers: the rounds that both the layered call and the telling word run, and the layered call.
#![tactic(auto)]

pub mod first;
pub mod layers;
mod rooms;
pub mod rounds;
