//! Conversion: a fresh volume of another format with the same tree. Which trees fit, the commands that make a tree on a fresh volume,
//! and the line that is written.
#![tactic(auto)]

mod blocks;
mod converting;
mod copying;
mod ending;
mod source;
mod target;
mod texts;
mod words;

ghost use Rattle.fc_convert.specs.Rows.{ConvertRows};

pub use converting::convert;
pub use ending::ConvertEnd;
pub use fc_fit::What;

/// Words and lines of conversion, worked out.
pub fn rows()
    ensures { ConvertRows }
{}
