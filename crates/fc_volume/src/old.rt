// Compaction of a volume whose disc has an old map.
mod compacting;
mod laws;
mod writing;

pub use compacting::compact;
