//! What an image opens as: its kind, its map, the walk over its directories, and the first fault of an image that is not
//! accepted; and what may change in an image without changing what it opens as. `effects`: what commands do to an image.
//! `safe`: what the safe mode does.
//!
//! Source: the RISC OS PRM, chapter FileCore.
#![tactic(auto)]

pub mod effects;
pub mod safe;

ghost use Rattle.fc_image.specs.Laws.{AcceptedLaw, LaterOpeningLaw, OpensLaw, WalkLaw};
ghost use Rattle.fc_image.specs.Rows.{ImageRows};
ghost use Rattle.fc_image.specs.Edits.{ApartLaw, EditLaw, PathsLaw, RoomLaw, StayLaw, WalkFormLaw};
ghost use Rattle.fc_image.specs.Order.{OrderLaw};
ghost use Rattle.fc_image.specs.TreeEdits.{TreeEditLaw};
ghost use Rattle.fc_image.specs.Sound.{LookupLaw};
ghost use Rattle.fc_image.specs.Commanded.{CommandLaw, ObjectsLaw};
ghost use Rattle.fc_image.specs.EditedWalk.{EditedApartLaw, EditedWalkLaw, EntriesLaw, ListingsLaw, RelistingLaw};
ghost use Rattle.fc_image.specs.EditedImage.{EditedImageLaw};
ghost use Rattle.fc_image.specs.MapEdits.{MapEditLaw, PlacesLaw};
ghost use Rattle.fc_image.specs.OldEdits.{OldPlacesLaw, OldMapEditLaw};
ghost use Rattle.fc_image.specs.Rewords.{RewordLaw};
ghost use Rattle.fc_image.specs.Moves.{BootApartLaw, BootStaysLaw, CarriedLaw, CarryLaw, CommitLaw, HoleStepLaw, KeepsObjectsLaw, LooksLaw, MergeLaw, MoveLaw, SameMapLaw, ThenLaw, WholeLaw, WithMapLaw, ZoneFitsLaw};
ghost use Rattle.fc_image.specs.OldMaps.{OldMapLaw};
ghost use Rattle.fc_image.specs.Stays.{FreeLaw, HoleWriteLaw, HolesLaw, StoredLaw};

use fc_dirs::DirFault;
use fc_names::Path;

/// Why an image isn't accepted, in the order in which faults are reported.
#[derive(Drop)]
pub enum ImageFault {
    /// It is no disc of a known kind.
    NoKind,
    /// It is shorter than its disc: bytes that are needed, and that are there.
    Short { need: u64, have: u64 },
    /// No copy of the map is sound: the first zone of each with a wrong check, or the number of zones.
    Copies { c1: u16, c2: u16 },
    /// The map's record differs from the one that gave the kind, first at this offset.
    Differs { offset: u8 },
    /// The map's record has a wrong root or root size.
    Bad { offset: u8 },
    /// No run or hole of this zone begins where one has to, at this bit.
    Zone { zone: u16, bit: u32 },
    /// The old map's hole of this number is wrong.
    Hole { index: u32 },
    /// The bytes at this path are not a directory.
    Directory { path: Path, fault: DirFault },
    /// An object's address and length lie outside its space.
    Place { path: Path },
    /// An object takes a sector that is taken already.
    Overlap { path: Path },
    /// A sector of the map or of the boot block lies in a hole or in an identifier that may move, or is of both.
    MapPlace { sector: u64 },
}

/// Whole images, good ones and one for each fault, worked out.
pub fn rows()
    ensures { ImageRows }
{}

/// A walk depends only on what its directories say.
pub fn walking()
    ensures { WalkLaw }
{}

/// An image opens if its parts are right and its bytes spell them.
pub fn opens()
    ensures { OpensLaw }
{}

/// An image that is accepted opens as its own kind.
pub fn accepted()
    ensures { AcceptedLaw }
{}

/// Opening an image by itself gives what opening it as a kind gives, if no earlier kind fits.
pub fn opened_again()
    ensures { LaterOpeningLaw }
{}

/// What lies outside the map and all objects counts for nothing.
pub fn free()
    ensures { FreeLaw }
{}

/// If all objects are stored alike, the trees are the same.
pub fn stored()
    ensures { StoredLaw }
{}

/// Holes lie apart from the map and all objects.
pub fn holes()
    ensures { HolesLaw }
{}

/// What is written into holes leaves the image as it opens.
pub fn hole_writes()
    ensures { HoleWriteLaw }
{}

/// No sector of a boot block holds the map.
pub fn boot_apart()
    ensures { BootApartLaw }
{}

/// A disc with a boot block keeps its kind, if only the map and holes change.
pub fn boot_stays()
    ensures { BootStaysLaw }
{}

/// A disc of one zone keeps its kind, if its map is found.
pub fn zone_fits()
    ensures { ZoneFitsLaw }
{}

/// Movable identifiers may move, any number at once.
pub fn carries()
    ensures { CarryLaw }
{}

/// A movable identifier may move into holes.
pub fn moves()
    ensures { MoveLaw }
{}

/// Runs and holes that touch may become one, and may be cut.
pub fn merges()
    ensures { MergeLaw }
{}

/// What is opened, read by another map.
pub fn maps()
    ensures { WithMapLaw }
{}

/// Each image that a crash inside a commit may leave has all objects as they were.
pub fn commits()
    ensures { CommitLaw }
{}

/// What is written into holes keeps all objects.
pub fn hole_steps()
    ensures { HoleStepLaw }
{}

/// One step after others keeps all objects.
pub fn steps()
    ensures { ThenLaw }
{}

/// A step that keeps all objects keeps the image whole.
pub fn wholes()
    ensures { WholeLaw }
{}

/// A disc of one zone doesn't come to look like one with a boot block, if sector 3 lies in identifier 2.
pub fn looks()
    ensures { LooksLaw }
{}

/// As each kind of one geometry an image has one map, and says the same.
pub fn one_map()
    ensures { SameMapLaw }
{}

/// What each crash of compaction keeps, is kept from one to the next.
pub fn keeps_objects()
    ensures { KeepsObjectsLaw }
{}

/// Sectors that are carried, piece by piece.
pub fn pieces()
    ensures { CarriedLaw }
{}

/// A walk finds the listings that follow from the root, if all objects are apart, and no others.
pub fn walk_form()
    ensures { WalkFormLaw }
{}

/// An opened disc has no more directories than sectors.
pub fn room()
    ensures { RoomLaw }
{}

/// Listings that follow, if one of them is edited.
pub fn edits()
    ensures { EditLaw }
{}

/// Objects that come and go, apart from the others.
pub fn apart()
    ensures { ApartLaw }
{}

/// What an image says, another says that has the directories' sectors and the objects' places.
pub fn listed()
    ensures { StayLaw }
{}

/// No two objects of an opened image have paths that fold to one.
pub fn paths()
    ensures { PathsLaw }
{}

/// What a walk finds doesn't depend on the order in which listings are given.
pub fn walk_order()
    ensures { OrderLaw }
{}

/// How the tree changes when objects go, come and move.
pub fn tree_edits()
    ensures { TreeEditLaw }
{}

/// The path of an object, or of a listing, leads to it.
pub fn lookups()
    ensures { LookupLaw }
{}

/// From facts of single objects to edits of the tree.
pub fn tree_objects()
    ensures { ObjectsLaw }
{}

/// A command's edit of the objects gives the tree of the model.
pub fn commanded()
    ensures { CommandLaw }
{}

/// The walk after an edit, which may move directories with their contents.
pub fn edited_walks()
    ensures { EditedWalkLaw }
{}

/// Edits of listings, by the directories in which objects go and come.
pub fn relistings()
    ensures { RelistingLaw }
{}

/// Which objects lie apart after an edit.
pub fn edited_apart()
    ensures { EditedApartLaw }
{}

/// Picking listings out of a walk.
pub fn which_listings()
    ensures { ListingsLaw }
{}

/// The objects of a directory after an edit of its entries.
pub fn edited_entries()
    ensures { EntriesLaw }
{}

/// An image opens after an edit of its directories and its map.
pub fn edited_images()
    ensures { EditedImageLaw }
{}

/// An object keeps its sectors if its identifier keeps its runs.
pub fn kept_places()
    ensures { PlacesLaw }
{}

/// Edits of directories on discs with new maps.
pub fn map_edits()
    ensures { MapEditLaw }
{}

/// An object on an old map keeps its sectors, whatever happens to the holes.
pub fn old_places()
    ensures { OldPlacesLaw }
{}

/// Edits of directories on discs with old maps.
pub fn old_map_edits()
    ensures { OldMapEditLaw }
{}

/// New words and attributes for one object.
pub fn rewords()
    ensures { RewordLaw }
{}

/// What an opened image with an old map says of its holes and objects.
pub fn old_maps()
    ensures { OldMapLaw }
{}
