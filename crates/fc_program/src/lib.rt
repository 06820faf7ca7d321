//! What the programs share: their words, texts that are written to their end, the line of an image that isn't accepted, and fresh images under a
//! name.
#![tactic(auto)]

mod arguments;
mod image;
mod sink;
mod texts;

pub use arguments::words_of;
pub use image::make_image;
pub use sink::write_all;
pub use texts::{bad_image_line, push_count, push_number, push_path, push_word};
