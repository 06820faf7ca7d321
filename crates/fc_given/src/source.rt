// The new object of a change, from bytes that are given.
ghost use Rattle.std.specs.Prelude.{◌≡◌, ◌<◌, [], All, length, IsTrue, IsFalse, OnOk};
ghost use Rattle.std.specs.Option.{ForSome};
ghost use Rattle.fc_device.specs.Calls.{SameForm, StopsAndExitsLeave};
ghost use Rattle.fc_import.specs.Imports.{HasCauses, IsSameSupply};
ghost use Rattle.fc_objects.specs.Written.{AreApart};
ghost use Rattle.fc_writing.specs.Content.{HasContent, IsPart};
ghost use Rattle.fc_writing.specs.Ready.{source_content, source_place};
ghost use Rattle.fc_given.specs.Law.{IsGivenSource, rest_of};

use fc_device::Disk;
use fc_host::Supply;
use fc_import::{ImportFault, import};
use fc_writing::{Ready, Source};

/// What a change writes into the new object's sectors, and the rest of it.
pub fn part_of(ready: Ready) -> (Source, Ready)
    ensures source { result.0 ≡ ready.source }
    ensures rest { result.1 ≡ rest_of ready }
{
    let Ready {
        source,
        carried,
        early,
        late,
        take,
        give,
    } = ready;
    let rest = Ready {
        source: Source::Nothing,
        carried,
        early,
        late,
        take,
        give,
    };
    (source, rest)
}

/// Asks for all bytes and writes them into the sectors of a new object, zeros after them, and syncs. None is given yet. Bytes for which
/// there is no sector are left out. The sectors aren't copied from others.
///
/// At every crash and at every exit, an error included, no sector but the object's has changed, and each of these is as it was or has its
/// part of the bytes that were given.
pub fn import_source<D: Disk, B: Supply>(
    disk: &mut D,
    size: usize,
    source: &Source,
    from: &mut B,
) -> Result<(), ImportFault>
    requires attached { IsTrue (D.attached disk.old) }
    requires settled { IsFalse (D.pending disk.old) }
    requires size { D.sector_size disk.old ≡ size }
    requires on_disk { All (λ s. s < D.sectors disk.old) (source_place source.now) }
    requires once { AreApart (source_place source.now) }
    requires fresh { B.given from.old ≡ [] }
    requires copies_none { IsGivenSource source.now }
    ensures given { OnOk result (length (B.given from.new) ≡ B.total from.old) }
    ensures keeps { StopsAndExitsLeave D.Disk disk.old disk.new (λ was image. IsPart size [] (source_content size was (B.given from.new) source.now) was image) }
    ensures written { OnOk result (ForSome (D.bytes disk.old) (λ was. ForSome (D.bytes disk.new) (HasContent size (source_content size was (B.given from.new) source.now)))) }
    ensures durable { OnOk result (IsFalse (D.pending disk.new)) }
    ensures form { SameForm D.Disk disk.old disk.new }
    ensures supply { IsSameSupply B.Supply from.old from.new }
    ensures causes { HasCauses D.Disk B.Supply disk.old disk.new from.old from.new result }
{
    match source {
        Source::Bytes(place) => import(disk, size, place, from),
        Source::Nothing => import(disk, size, &[], from),
        Source::Sectors(_) => unreachable!(),
    }
}
