//! The bounds of what a frame may hold.

/// How many bytes a frame's slot has.
pub const SLOT: usize = 32;

/// Nodes are numbered from 1 to this.
pub const HIGHEST_NODE: u8 = 16;

/// Configurations are numbered from 0 to this.
pub const HIGHEST_NUMBER: u8 = 16;

/// Operations are numbered from 0 to this.
pub const HIGHEST_OPERATION: u16 = 4095;

/// The versions of tags go from 0 to this.
pub const HIGHEST_VERSION: u16 = 9999;
