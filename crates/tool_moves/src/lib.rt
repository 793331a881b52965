// Lines that ask for sends and receives: what they ask for, and the numbers that are printed of a piece.
#![tactic(auto)]

pub mod asked;
pub mod pieces;
