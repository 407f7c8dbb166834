// The lookup of a property in a flattened device tree. It knows no transfer list: of the crate rules it takes find's answer alone.
#![tactic(auto)]

pub mod find;
mod names;
mod seek;
mod skip;
