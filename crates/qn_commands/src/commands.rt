//! The commands, one in each file.
pub mod count;
pub mod create;
pub mod dump;
pub mod list;
pub mod message;
pub mod migrate;
