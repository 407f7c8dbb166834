// Request 9's forms of add, add aligned and void with a journal: the plain call's decision, and its plan carried out by steps. A start decides
// and stores nothing; a whole form is its start and the steps to the end, and stores in no other way.
#![tactic(auto)]

pub mod forms;
pub mod starts;
