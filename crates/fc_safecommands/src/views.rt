// Laws of what the safe mode needs for each job, over each view of a volume.
ghost use Rattle.fc_safecommands.specs.Jobs.{JobLaw, JudgedLaw};

/// A law: each job is refused for want of space in the safe mode exactly as its command is, and has the needs of that.
pub fn jobs()
    ensures { JobLaw }
{}

/// A law: a judged command's job, over parts that agree and suit the safe mode, is one in each view that they hold.
pub fn judged()
    ensures { JudgedLaw }
{}
