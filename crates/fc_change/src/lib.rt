//! A change of a volume's objects as one value, whichever command makes it: what the command is about (`Job`), what it needs of the disc
//! (`Wants`), where its space is (`Spaces`), what each directory says afterwards (`Change`), how it is made ready to be written
//! (`Ready`), and how a volume takes it over. Before anything is written all of it is in memory, so a refusal or a lack of memory leaves a volume as it was.
#![tactic(auto)]

mod around;
mod change;
mod directories;
mod drafts;
mod held;
mod job;
mod lists;
mod needs;
mod owner;
mod pieces;
mod placing;
mod rewriting;
mod spaces;
mod takeover;

pub use change::{Change, Regrowth, Says, Turned};
pub use drafts::draft;
pub use fc_writing::{MapStep, Piece, Ready, RootPlace, Source, SpaceStep, Transfer};
pub use held::Held;
pub use job::{FileWords, Growth, Job, ObjectWords, Wants};
pub use needs::wants;
pub use owner::{entry_owner, object_bytes};
pub use pieces::{new_pieces, piece_of, place_of_node, prepare, source_of};
pub use placing::{
    address_for, bytes_left, copied_from, copy_of, extents_in, has_ids, is_alone, object_place,
    place, placing_of, room_for, root_of, share_for, shared_id, units_for,
};
pub use spaces::{GrownPlace, Place, SpaceError, Spaces};
pub use takeover::{admit, take_over};
