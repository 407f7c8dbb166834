// The test certificate entry: found in a list, and judged.
#![tactic(auto)]

pub mod certify;
mod contents;
mod kind;
