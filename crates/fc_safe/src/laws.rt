// Laws of what the safe mode needs.
ghost use Rattle.fc_safe.specs.Views.{PlainLaw, StirLaw};

/// A law: what is stirred, told by nodes and owners, has the needs of the command over each view whose objects the nodes hold.
pub fn stirred()
    ensures { StirLaw }
{}

/// A law: `delete`, `set` and `mark` are refused for want of space exactly as their jobs are, and get what they need.
pub fn plain()
    ensures { PlainLaw }
{}
