// Laws of jobs in the safe mode.
ghost use Rattle.fc_safecommands.specs.Laws.{SafeCourseLaw};

/// A law: what is asked of a job for its course in the safe mode holds of all that an entry can hold.
pub fn safe_jobs()
    ensures { SafeCourseLaw }
{
    fc_safeedits::safe_addition();
    fc_safeedits::safe_copying();
    fc_safeedits::safe_growing_copies();
    fc_safeedits::safe_deletion();
    fc_safeedits::safe_rewording();
    fc_safeedits::safe_space();
    fc_safeedits::safe_writing();
    fc_safeedits::safe_growing();
    fc_safeedits::safe_growing_moves();
    fc_safeedits::safe_moving();
}
