// For the programs that try calls: calls in place on tables by value, one call by both entries, the line that tells of it, and how it is printed.
#![tactic(auto)]

pub mod in_place;
pub mod print;
pub mod put;
pub mod trial;
