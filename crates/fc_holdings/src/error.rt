// Why a command isn't done.
ghost use Rattle.std.specs.Prelude.{◌≡◌};
ghost use Rattle.fc_holdings.specs.declared.error.CommandError.TheVariants as errors;
ghost use Rattle.fc_holdings.specs.Answers.{no_space};

use fc_device::NoMemory;
use fc_names::Refusal;
use fc_plan::PlanError;

/// Why a command isn't done.
#[derive(Clone, Copy)]
pub enum CommandError {
    /// The first reason that applies.
    Refused(Refusal),
    NoMemory,
    /// A call of the disk failed.
    DiskFault,
}

impl From<Refusal> for CommandError {
    ghost from_gives = { λ refusal answer. answer ≡ errors.Refused refusal };

    fn from(refusal: Refusal) -> Self
        ensures { result ≡ errors.Refused refusal }
    {
        CommandError::Refused(refusal)
    }
}

impl From<PlanError> for CommandError {
    ghost from_gives = { λ error answer. answer ≡ no_space error };

    fn from(error: PlanError) -> Self
        ensures { result ≡ no_space error }
    {
        match error {
            PlanError::IdsFull => CommandError::Refused(Refusal::IdsFull),
            PlanError::DiscFull => CommandError::Refused(Refusal::DiscFull),
            PlanError::NoMemory => CommandError::NoMemory,
        }
    }
}

impl From<NoMemory> for CommandError {
    ghost from_gives = { λ _ answer. answer ≡ errors.NoMemory };

    fn from(_: NoMemory) -> Self
        ensures { result ≡ errors.NoMemory }
    {
        CommandError::NoMemory
    }
}
