//! Directories as a command leaves them. Before a command writes anything it drafts each directory that it changes: a copy
//! in memory, in which entries come, go and change, and whose head gets the address of its holder and the next sequence
//! byte. So a refusal or a lack of memory leaves the volume as it was, since the volume's own directories are not touched.
//!
//! A `Draft` is one face of small and big directories. Its rewritings (`enter`, `replace`, `leave`, `rename`,
//! `rename_head`, `set_holder`) each say what fc_image::effects asks of a rewritten directory.
#![tactic(auto)]

mod draft;
mod editing;
mod entries;
mod laws;
mod rewriting;
mod room;

pub use draft::Draft;
pub use entries::{
    directory_entry, file_entry, marked_entry, new_dir_size, regrown_entry, renamed_entry,
    saved_entry, set_entry,
};
pub use laws::{edited, free_names, made_entries};
pub use room::Room;
