// Laws for callers.
ghost use Rattle.fc_drafts.specs.Laws.{EditedLaw, EntryLaw, FreeNameLaw};

/// A law: which edit of a directory's entries each command is.
pub fn edited()
    ensures { EditedLaw }
{}

/// A law: the entries that commands make are as a command has to leave them in what the tree doesn't show, and directories can
/// hold them.
pub fn made_entries()
    ensures { EntryLaw }
{}

/// A law: a name that no entry has, or only the one that is renamed, is free for it.
pub fn free_names()
    ensures { FreeNameLaw }
{}
