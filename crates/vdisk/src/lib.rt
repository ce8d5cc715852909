// The lookups of vdisk.rs: the drive's layout, the parts of a file's id, and the kinds of owner of a cluster.

#![tactic(auto)]

pub mod drive;
pub mod ids;
pub mod owner;
