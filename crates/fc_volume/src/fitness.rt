// Whether a volume is fit after a command.
ghost use Rattle.std.specs.Prelude.{◌≡◌};
ghost use Rattle.fc_volume.specs.Fitness.{fit_after, fit_after_giving};

use fc_commands::GivenError;
use fc_holdings::CommandError;

/// Whether a volume is fit after a command that was answered so: unless the disk failed.
pub fn is_fit_after(answer: &Result<(), CommandError>) -> bool
    ensures { result ≡ fit_after answer.now }
{
    match answer {
        Ok(()) => true,
        Err(CommandError::Refused(_)) => true,
        Err(CommandError::NoMemory) => true,
        Err(CommandError::DiskFault) => false,
    }
}

/// The same after a command whose bytes were given: a supply that fails leaves it fit.
pub fn is_fit_after_giving(answer: &Result<(), GivenError>) -> bool
    ensures { result ≡ fit_after_giving answer.now }
{
    match answer {
        Ok(()) => true,
        Err(GivenError::Command(error)) => is_fit_after(&Err(*error)),
        Err(GivenError::Supply) => true,
    }
}
