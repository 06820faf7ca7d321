// Why a line that may move a file of the host isn't answered.
ghost use Rattle.std.specs.Prelude.{◌≡◌};
ghost use Rattle.fc_shell.specs.MoveFaults.{moved_result};
ghost use Rattle.fc_shell.specs.declared.moving.MoveFault.TheVariants as errors;

use crate::answer::LineFault;
use fc_device::{Failed, NoMemory};
use fc_export::ExportFault;

/// Why a line that may move a file of the host isn't answered.
#[derive(Clone, Copy)]
pub enum MoveFault {
    /// A call of the disk failed.
    Disk,
    /// A call of the output failed.
    Out,
    /// A call of the host failed.
    Host,
    NoMemory,
}

impl From<ExportFault> for MoveFault {
    ghost use Rattle.fc_shell.specs.MoveFaults.{export_fault};

    ghost from_gives = { λ fault e. e ≡ export_fault fault };

    fn from(fault: ExportFault) -> Self
        ensures { result ≡ export_fault fault }
    {
        match fault {
            ExportFault::Disk => MoveFault::Disk,
            ExportFault::Host => MoveFault::Host,
        }
    }
}

/// A failure is the host's, since those of disk and output are told by other types.
impl From<Failed> for MoveFault {
    ghost from_gives = { λ _ e. e ≡ errors.Host };

    fn from(_: Failed) -> Self
        ensures { result ≡ errors.Host }
    {
        MoveFault::Host
    }
}

impl From<NoMemory> for MoveFault {
    ghost from_gives = { λ _ e. e ≡ errors.NoMemory };

    fn from(_: NoMemory) -> Self
        ensures { result ≡ errors.NoMemory }
    {
        MoveFault::NoMemory
    }
}

/// The answer to a line that moves no file.
pub fn moved(answered: Result<bool, LineFault>) -> Result<bool, MoveFault>
    ensures { result ≡ moved_result answered }
{
    match answered {
        Ok(refused) => Ok(refused),
        Err(LineFault::Disk) => Err(MoveFault::Disk),
        Err(LineFault::Out) => Err(MoveFault::Out),
        Err(LineFault::NoMemory) => Err(MoveFault::NoMemory),
    }
}
