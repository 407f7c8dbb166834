// Add, add aligned and void. An edit first decides, reading only, then what it has decided is carried out.
#![tactic(auto)]

pub mod decide;
pub mod edits;
