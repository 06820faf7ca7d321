//! What a crash inside a command of the safe mode leaves, whatever the command: a change that is written early as a whole, into
//! sectors in which nothing lies, and committed by one step of at most nine zones is there as a whole or not at all.
#![tactic(auto)]

ghost use Rattle.fc_safecrash.specs.Crash.{CrashLaw};

/// A crash leaves the tree before the change or after it, and the rest as it was.
pub fn crash()
    ensures { CrashLaw }
{}
