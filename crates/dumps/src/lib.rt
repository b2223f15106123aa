// Dumps of chips, read one behind another (document 02, P7).
#![tactic(auto)]

pub mod tray;
