// The C interface: each call of the crates below it, with slices as a pointer and a length and answers as structs of numbers, since C takes no enum that holds values.
// include/wylgentip.h says what each refuses and leaves.
#![tactic(auto)]

pub mod file;
pub mod layers;
pub mod shrinks;
pub mod takes;
pub mod tells;
pub mod words;
