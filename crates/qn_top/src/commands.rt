//! The commands, one in each file.
pub(crate) mod help;
pub(crate) mod replay;
pub(crate) mod replay3;
pub(crate) mod replay_arbiter;
pub(crate) mod soak;
pub(crate) mod status;
