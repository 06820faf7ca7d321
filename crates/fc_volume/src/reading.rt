// Commands that change nothing.
ghost use Rattle.std.specs.Prelude.{◌≡◌, ◌≢◌, ◌⊎◌, ◌<◌, ◌*◌, ◌^◌, max, ℕ, List, Ok, Err, IfOk, IfErr, IsTrue, MatchResult, map};
ghost use Rattle.std.specs.FinMap.{get};
ghost use Rattle.std.specs.List.{fold};
ghost use Rattle.fc_names.specs.declared.refusal.Refusal.{Refusal};
ghost use Rattle.fc_oldmap.specs.Holes.{hole_sum};
ghost use Rattle.fc_record.specs.declared.Kind.{Kind};
ghost use Rattle.fc_dirs.specs.declared.Entry.{Entry};
ghost use Rattle.fc_model.specs.Command.{Command};
ghost use Rattle.fc_model.specs.Answer.{answer};
ghost use Rattle.fc_model.specs.Tree.{bytes_of_node, node_at};
ghost use Rattle.fc_image.specs.Layout.{Layout, dir_form};
ghost use Rattle.fc_image.specs.Report.{free_bytes, largest_hole};
ghost use Rattle.fc_image.specs.Objects.{tree_of};
ghost use Rattle.fc_image.specs.Opening.{Opened};
ghost use Rattle.fc_image.specs.Stays.{OpensAs};
ghost use Rattle.fc_tree.specs.Nodes.{found_in, nodes_of};
ghost use Rattle.fc_tree.specs.Parts.{ArePartsOf};
ghost use Rattle.fc_volume.specs.Answers.{IsRef, IsRefusalOf, lines_in, ref_bytes};
ghost use Rattle.fc_volume.specs.Reading.{AreLines, entries_at, entries_in, entries_in_body, file_at, file_of, line_of, number_found};
ghost use Rattle.fc_volume.specs.Volume.{StandsFor, parts_of};

use crate::{CommandError, FileRef, Line, Listed, Volume};
use fc_device::{Disk, NoMemory};
use fc_dirs::Entry;
use fc_names::{Path, Refusal, fold_cmp};
use fc_newmap::NewMap;
use fc_oldmap::Hole;
use fc_space::Space;
use fc_tree::{Body, Found, Tree};
use std::alloc::Global;

// The number of the node to which a path leads.
fn number_found(tree: &Tree, p: &Path) -> Result<u64, CommandError>
    ensures { result ≡ number_found (found_in (nodes_of tree.now) p.now) }
{
    match tree.find(p) {
        Found::Node(n) => Ok(n),
        Found::Absent => Err(CommandError::Refused(Refusal::NotFound)),
        Found::NotDirectory => Err(CommandError::Refused(Refusal::NotDirectory)),
    }
}

// ---- files

// The file that has a number.
fn file_of(tree: &Tree, n: u64) -> Result<FileRef, CommandError>
    ensures { result ≡ file_of n (get (nodes_of tree.now) n) }
{
    match tree.node(n) {
        Some(node) if node.entry.is_directory() => {
            Err(CommandError::Refused(Refusal::IsDirectory))
        }
        Some(node) => Ok(FileRef {
            len: u64::from(node.entry.len),
            node: n,
        }),
        None => Err(CommandError::Refused(Refusal::NotFound)),
    }
}

// The file at a path.
fn file_at(tree: &Tree, p: &Path) -> Result<FileRef, CommandError>
    ensures { result ≡ file_at (nodes_of tree.now) p.now }
{
    let n = number_found(tree, p)?;
    file_of(tree, n)
}

// ---- directories

// What a node has as its entries, by its body.
fn entries_in_body(body: &Body) -> Result<&[Entry], CommandError>
    ensures { MatchResult result (λ entries. entries_in_body body.now ≡ Ok entries.now) (λ error. entries_in_body body.now ≡ Err error) }
{
    match body {
        Body::File => Err(CommandError::Refused(Refusal::NotDirectory)),
        Body::Small(dir) => Ok(dir.entries()),
        Body::Big(dir) => Ok(dir.entries()),
    }
}

// The entries of the directory that has a number.
fn entries_in(tree: &Tree, n: u64) -> Result<&[Entry], CommandError>
    ensures { MatchResult result (λ entries. entries_in (get (nodes_of tree.now) n) ≡ Ok entries.now) (λ error. entries_in (get (nodes_of tree.now) n) ≡ Err error) }
{
    match tree.node(n) {
        Some(node) => entries_in_body(&node.body),
        None => Err(CommandError::Refused(Refusal::NotFound)),
    }
}

// The entries of the directory at a path, in stored order.
fn entries_at<'a>(tree: &'a Tree, p: &Path) -> Result<&'a [Entry], CommandError>
    ensures { MatchResult result (λ entries. entries_at (nodes_of tree.now) p.now ≡ Ok entries.now) (λ error. entries_at (nodes_of tree.now) p.now ≡ Err error) }
{
    let n = number_found(tree, p)?;
    entries_in(tree, n)
}

// An entry as a line.
fn line_of(e: &Entry) -> Result<Line, NoMemory>
    ensures { IfOk result (λ line. line ≡ line_of e.now) }
{
    let listed = if e.is_directory() {
        Listed::Dir
    } else {
        Listed::File(u64::from(e.len))
    };
    Ok(Line {
        name: e.name.clone()?,
        attrs: e.attrs,
        load: e.load,
        exec: e.exec,
        listed,
    })
}

// The lines of some entries, in their order.
fn stored_lines(alloc: Global, entries: &[Entry]) -> Result<Vec<Line>, NoMemory>
    ensures { IfOk result (λ lines. lines.items ≡ map line_of entries.now) }
{
    let mut lines = Vec::with_capacity(alloc, entries.len())?;
    for e in entries {
        lines.push(line_of(e)?).map_err(|_| NoMemory)?;
    }
    Ok(lines)
}

// The lines of some entries, by name.
fn lines_of(alloc: Global, entries: &[Entry]) -> Result<Vec<Line>, NoMemory>
    ensures { IfOk result (λ lines. AreLines entries.now lines.items) }
{
    let mut lines = stored_lines(alloc, entries)?;
    lines.sort_unstable_by(|a, b| fold_cmp(&a.name, &b.name));
    Ok(lines)
}

// The lines of the directory at a path.
fn lines_at(alloc: Global, tree: &Tree, p: &Path) -> Result<Vec<Line>, CommandError>
    ensures lines { IfOk result (λ lines. (entries : List Entry) × (entries_at (nodes_of tree.now) p.now ≡ Ok entries) × AreLines entries lines.items) }
    ensures error { IfErr result (λ error. (error ≡ CommandError.NoMemory) ⊎ (entries_at (nodes_of tree.now) p.now ≡ Err error)) }
{
    let entries = entries_at(tree, p)?;
    Ok(lines_of(alloc, entries)?)
}

// ---- free space

// The bytes of a unit of an old map.
const UNIT: u64 = 256;

// The units of all holes.
fn units_of(holes: &[Hole]) -> u32
    requires { hole_sum holes.now < 2 ^ 32 }
    ensures { result ≡ hole_sum holes.now }
{
    holes.iter().map(|hole| hole.len).sum()
}

// The units of the largest hole.
fn most_units(holes: &[Hole]) -> u32
    ensures { result ≡ fold (λ n h. max n h.len) 0 holes.now }
{
    holes.iter().fold(0, |most, hole| most.max(hole.len))
}

// The bytes of all holes of an old map, and of the largest.
fn old_free(holes: &[Hole]) -> (u64, u64)
    requires { hole_sum holes.now < 2 ^ 32 }
    ensures all { result.0 ≡ 256 * hole_sum holes.now }
    ensures largest { result.1 ≡ 256 * fold (λ n h. max n h.len) 0 holes.now }
{
    (
        UNIT * u64::from(units_of(holes)),
        UNIT * u64::from(most_units(holes)),
    )
}

// The bytes of all holes of a new map, and of the largest.
fn new_free(map: &NewMap) -> (u64, u64)
    ensures all { result.0 ≡ free_bytes (Layout.New map.now) }
    ensures largest { result.1 ≡ largest_hole (Layout.New map.now) }
{
    let bit = map.geometry().bit_bytes;
    let sums = map.hole_sums();
    (sums.total * bit, sums.longest * bit)
}

impl Volume {
    /// The entries of a directory, rising by folded name.
    pub fn cat<D: Disk>(
        &self,
        alloc: Global,
        disk: &mut D,
        p: &Path,
    ) -> Result<Vec<Line>, CommandError>
        requires fit { IsTrue self.now.fit }
        requires stands { StandsFor D.Disk self.now disk.old }
        ensures answer { (image : List ℕ) (kind : Kind) (view : Opened) → OpensAs image kind view → ArePartsOf (parts_of self.now) view
            → MatchResult result
            (λ lines. (answer (tree_of image view.layout view.listings) (dir_form view.layout) self.now.read_only (Command.Cat p.now) ≡ Ok (tree_of image view.layout view.listings))
            × (lines.items ≡ lines_in (tree_of image view.layout view.listings) p.now))
            (IsRefusalOf (answer (tree_of image view.layout view.listings) (dir_form view.layout) self.now.read_only (Command.Cat p.now))) }
        ensures no_fault { IfErr result (λ error. error ≢ CommandError.DiskFault) }
        ensures disk { disk.new ≡ disk.old }
    {
        self.holdings.places.places_suffice();
        lines_at(alloc, &self.holdings.tree, p)
    }

    /// The file that a path names. No memory is taken.
    pub fn load<D: Disk>(&self, disk: &mut D, p: &Path) -> Result<FileRef, CommandError>
        requires fit { IsTrue self.now.fit }
        requires stands { StandsFor D.Disk self.now disk.old }
        ensures answer { (image : List ℕ) (kind : Kind) (view : Opened) → OpensAs image kind view → ArePartsOf (parts_of self.now) view
            → MatchResult result
            (λ f. (answer (tree_of image view.layout view.listings) (dir_form view.layout) self.now.read_only (Command.Load p.now) ≡ Ok (tree_of image view.layout view.listings))
            × (bytes_of_node (node_at (tree_of image view.layout view.listings) p.now) ≡ ref_bytes image self.now f))
            (IsRefusalOf (answer (tree_of image view.layout view.listings) (dir_form view.layout) self.now.read_only (Command.Load p.now))) }
        ensures named { IfOk result (λ f. IsRef self.now f) }
        ensures exact { result ≡ file_at (nodes_of self.now.tree) p.now }
        ensures refused { IfErr result (λ error. (refusal : Refusal) × (error ≡ CommandError.Refused refusal)) }
        ensures disk { disk.new ≡ disk.old }
    {
        file_at(&self.holdings.tree, p)
    }

    /// The bytes of all holes, and of the largest.
    pub fn free(&self) -> (u64, u64)
        ensures all { result.0 ≡ free_bytes (parts_of self.now).layout }
        ensures largest { result.1 ≡ largest_hole (parts_of self.now).layout }
    {
        match self.holdings.places.space() {
            Space::OldMapped(map) => old_free(map.holes()),
            Space::NewMapped(map) => new_free(map),
        }
    }
}
