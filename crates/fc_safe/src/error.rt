// Why a command isn't done in the safe mode.
ghost use Rattle.std.specs.Prelude.{◌≡◌};
ghost use Rattle.fc_safe.specs.Answers.{of_plan};
ghost use Rattle.fc_safe.specs.declared.error.SafeError.TheVariants as errors;

use fc_device::NoMemory;
use fc_names::Refusal;
use fc_plan::PlanError;

/// Why a command isn't done in the safe mode.
#[derive(Clone, Copy)]
pub enum SafeError {
    /// The first reason that applies.
    Refused(Refusal),
    /// More than nine zones would change: so many.
    Spread(u16),
    NoMemory,
    /// A call of the disk failed.
    DiskFault,
}

impl From<NoMemory> for SafeError {
    ghost from_gives = { λ _ answer. answer ≡ errors.NoMemory };

    fn from(_: NoMemory) -> Self
        ensures { result ≡ errors.NoMemory }
    {
        SafeError::NoMemory
    }
}

impl From<PlanError> for SafeError {
    ghost from_gives = { λ error answer. answer ≡ of_plan error };

    fn from(error: PlanError) -> Self
        ensures { result ≡ of_plan error }
    {
        match error {
            PlanError::IdsFull => SafeError::Refused(Refusal::IdsFull),
            PlanError::DiscFull => SafeError::Refused(Refusal::DiscFull),
            PlanError::NoMemory => SafeError::NoMemory,
        }
    }
}
