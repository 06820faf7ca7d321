// An index of a new map's runs by their identifiers, so that the places of many objects cost one pass over the map.

ghost use Rattle.std.specs.Prelude.{◌≡◌, ◌<◌, ◌++◌, All, IfOk, OnOk};
ghost use Rattle.std.specs.List.Sorted.{IsNonDecreasingBy};
ghost use Rattle.fc_newmap.specs.Map.{all_runs};
ghost use Rattle.fc_newmap.specs.NewMap.{IsNewMap, IsOfRecord};
ghost use Rattle.fc_newmap.specs.Walk.{IsInZone};
ghost use Rattle.fc_space.specs.Index.{IsIndex, IsLow, is_met, row_of, rows_of, rows_with};

use fc_device::{Extent, NoMemory};
use fc_newmap::{NewMap, Walk, extent_of, home_zone};
use fc_record::Geometry;
use fc_zone::{Run, RunKind};
use std::alloc::Global;

/// The sectors of a run, with its identifier.
#[derive(Clone, Copy)]
pub struct IdRow {
    pub id: u32,
    pub place: Extent,
}

/// Whether the search for an identifier's runs meets a zone before it turns from the last zone to the first (`ahead`), or
/// afterwards.
pub fn is_met(g: &Geometry, ahead: bool, id: u32, z: u16) -> bool
    requires { IsOfRecord g.now }
    ensures { result ≡ is_met g.now ahead id z }
{
    let home = home_zone(g, id);
    if ahead { home <= z } else { z < home }
}

// Appends the row of a run with an identifier, if the search for it meets the run's zone then.
fn push_run(
    rows: &mut Vec<IdRow>,
    g: &Geometry,
    ahead: bool,
    z: u16,
    run: Run,
) -> Result<(), NoMemory>
    requires record { IsOfRecord g.now }
    requires within { IsInZone g.now (z, run) }
    ensures rows { OnOk result (rows.new.items ≡ rows.old.items ++ row_of g.now ahead (z, run) run.kind) }
    ensures low { OnOk result (All IsLow rows.old.items → All IsLow rows.new.items) }
{
    let RunKind::Id(id) = run.kind else {
        return Ok(());
    };
    if !is_met(g, ahead, id, z) {
        return Ok(());
    }
    let place = extent_of(g, z, run);
    if rows.push(IdRow { id, place }).is_err() {
        return Err(NoMemory);
    }
    Ok(())
}

// Appends the rows of all runs that the search for their identifiers comes to before it turns, or of all others.
fn push_runs(rows: &mut Vec<IdRow>, map: &NewMap, ahead: bool) -> Result<(), NoMemory>
    ensures rows { OnOk result (rows.new.items ≡ rows.old.items ++ rows_with map.now.geometry ahead (all_runs map.now)) }
    ensures low { OnOk result (All IsLow rows.old.items → All IsLow rows.new.items) }
    ensures map { IsNewMap map.now }
{
    let g = map.geometry();
    let mut walk = Walk::over_all(map);
    while let Some((z, run)) = walk.next(map) {
        push_run(rows, g, ahead, z, run)?;
    }
    Ok(())
}

/// The rows of all runs with an identifier, in the order of identifiers, and of one identifier in the order in which its
/// runs are found.
pub fn index_of(alloc: Global, map: &NewMap) -> Result<Vec<IdRow>, NoMemory>
    ensures { IfOk result (λ rows. IsIndex map.now rows.items) }
{
    let mut rows = Vec::new(alloc);
    push_runs(&mut rows, map, true)?;
    push_runs(&mut rows, map, false)?;
    rows.sort_by_key(|row| row.id)?;
    Ok(rows)
}

/// The rows of an identifier.
pub fn rows_of(rows: &[IdRow], id: u32) -> &[IdRow]
    requires { IsNonDecreasingBy (λ (r : IdRow). r.id) rows.now }
    ensures { result.now ≡ rows_of id rows.now }
{
    let from = rows.partition_point(|row| row.id < id);
    let rest = &rows[from..];
    let count = rest.partition_point(|row| row.id <= id);
    &rest[..count]
}
