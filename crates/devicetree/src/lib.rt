// The flattened device tree: whether data is one, by the grammar in specs/. Knows nothing of transfer lists.
#![tactic(auto)]

pub mod blocks;
pub mod bytes;
pub mod header;
mod members;
mod node;
pub mod parts;
pub mod tokens;
pub mod tree;
