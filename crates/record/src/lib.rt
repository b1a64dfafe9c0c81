// A node's record: its 16 bytes as that part of the lent tree, and its fields.
#![tactic(auto)]

pub mod bytes; // bytes.rt: little-endian numbers
pub mod node; // node.rt: the record and its readers
