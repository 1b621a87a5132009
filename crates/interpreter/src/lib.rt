// The commands of `slotrun`: each is read, done and answered by a line (document 01, "Cases").
#![tactic(auto)]

pub mod command;
pub mod line;
pub mod session;
