// Laws of jobs.
ghost use Rattle.fc_commands.specs.Laws.{CourseLaw};

/// A law: what is asked of a job for its course holds of those that have laws.
pub fn jobs()
    ensures { CourseLaw }
{
    fc_outcomes::deletion();
    fc_outcomes::rewording();
    fc_outcomes::addition();
    fc_outcomes::moving();
    fc_outcomes::copying();
}
