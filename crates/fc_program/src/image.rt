// Fresh images under a name.
ghost use Rattle.std.specs.Prelude.{◌≡◌, ◌++◌, true, false, [], ◌∷◌, Ok, Some, IfOk, option_map};
ghost use Rattle.std.specs.Option.{ForSome};
ghost use Rattle.fc_device.specs.Calls.{FailsByFault, Untouched};
ghost use Rattle.fc_device.specs.Form.{IsFresh};
ghost use Rattle.fc_device.specs.Stops.{LeavesOnly};
ghost use Rattle.fc_format.specs.Fresh.{format_size, fresh_image, zeros};
ghost use Rattle.fc_program.specs.Reading.{IsUnwritten};

use fc_device::{Disk, DiskFault};
use fc_format::{Format, FormatError, make};

/// Makes an image of a name, a fresh volume of the format. Answers whether the disk gives it.
pub fn make_image<D: Disk>(disk: &mut D, name: &str, format: Format) -> Result<bool, DiskFault>
    ensures asked { D.asked disk.new ≡ D.asked disk.old ++ (name.now, Some (format_size format)) ∷ [] }
    ensures given { IfOk result (λ given. ForSome (D.gives disk.old) (λ gives. given ≡ gives name.now (Some (format_size format)))) }
    ensures fresh { result ≡ Ok true → IsFresh D.attached D.pending D.sector_size disk.new }
    ensures bytes { result ≡ Ok true → D.bytes disk.new ≡ option_map (λ _. fresh_image format (zeros (format_size format))) (D.bytes disk.old) }
    ensures not_given { result ≡ Ok false → Untouched D.Disk disk.old disk.new
        × IsUnwritten D.Disk disk.old disk.new }
    ensures goes { LeavesOnly D.moment D.left_since disk.old disk.new (λ image. Unit {0}) }
    ensures tells { result ≡ Ok true → D.tells_stops disk.new ≡ D.tells_stops disk.old }
    ensures cause { FailsByFault D.Disk disk.old disk.new result }
{
    if !disk.attach(name, Some(format.size()))? {
        return Ok(false);
    }
    match make(disk, format) {
        Ok(()) => Ok(true),
        Err(FormatError::DiskFault) => Err(DiskFault),
        // The disk has just given an image of the format's size.
        Err(FormatError::TooSmall { .. }) => unreachable!(),
    }
}
