// The commands, a file each.
pub mod cdir;
pub mod delete;
pub mod mark;
pub mod rename;
pub mod save;
pub mod set;
