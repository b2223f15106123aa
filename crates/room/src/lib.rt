// How much room is left (document 02, P8): the two numbers that a panel shows at every turn, and the doors that keep what they are told
// from.
#![tactic(auto)]

pub mod kept;
pub mod left;
