// The reader of the stored cases: the file, a case as it is packed, its elements, and the views of its call.
#![tactic(auto)]

pub mod elements;
pub mod file;
pub mod packed;
pub mod views;
