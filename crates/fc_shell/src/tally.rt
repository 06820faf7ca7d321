// What is counted of the replies of a run.
ghost use Rattle.std.specs.Prelude.{◌≡◌, ◌<◌, ◌≤◌, ◌+◌, ◌-◌, ◌^◌, cond};

/// How many replies there are, and how many of them are error lines.
#[derive(Clone, Copy)]
pub struct Tally {
    pub replies: u32,
    pub refused: u32,
}

impl Tally {
    /// No reply.
    pub fn new() -> Tally
        ensures replies { result.replies ≡ 0 }
        ensures refused { result.refused ≡ 0 }
    {
        Tally {
            replies: 0,
            refused: 0,
        }
    }

    /// Counts a reply.
    pub fn count(&mut self, is_error: bool)
        requires few { self.old.replies < 2 ^ 32 - 1 }
        requires within { self.old.refused ≤ self.old.replies }
        ensures replies { self.new.replies ≡ self.old.replies + 1 }
        ensures refused { self.new.refused ≡ self.old.refused + cond is_error 1 0 }
    {
        self.replies += 1;
        self.refused += u32::from(is_error);
    }
}
