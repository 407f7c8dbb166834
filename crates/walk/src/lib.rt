// Reading a transfer list of either edition: its header, the cursor that walks its entries, the survey, which is the check with a wanted
// entry, and find. Nothing here writes.
#![tactic(auto)]

pub mod check;
pub mod cursor;
pub mod find;
pub mod format;
pub mod header;
pub mod wanted;
