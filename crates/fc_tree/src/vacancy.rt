// The search for the least number that no node has.
ghost use Rattle.std.specs.Prelude.{◌≡◌, ◌≤◌, true, is_none, is_some, length, List, Option};
ghost use Rattle.std.specs.List.{position_or_len};
ghost use Rattle.fc_tree.specs.declared.node.Node.{Node};
ghost use Rattle.fc_tree.specs.Slots.{AreFull, AreSameBut, slot_at};
ghost use Rattle.fc_tree.specs.Vacancy.{IsVacancy};

use crate::node::Node;
use crate::slots::first_vacant;

// Where the search begins. A node that is taken out and put back leaves it where it was.
#[derive(Clone, Copy)]
pub struct Vacancy {
    // The numbers below it have nodes.
    least: usize,
    // The number that was taken out last, and a number below which all others have nodes.
    taken: u64,
    others: usize,
}

impl Vacancy {
    // For so many numbers, which all have nodes.
    pub fn past(count: usize) -> Vacancy
        ensures { (slots : List (Option Node)) → length slots ≡ count → AreFull slots count → IsVacancy slots result }
    {
        Vacancy {
            least: count,
            taken: 0,
            others: 0,
        }
    }

    // The node of a number is taken out.
    pub fn take(&mut self, n: u64)
        ensures { (slots new : List (Option Node)) → AreSameBut n slots new → length new ≡ length slots → IsVacancy slots self.old → IsVacancy new self.new }
    {
        self.taken = n;
        self.others = self.least;
        self.least = self.least.min(n as usize);
    }

    // A number gets a node.
    pub fn put(&mut self, n: u64)
        ensures { (slots new : List (Option Node)) → AreSameBut n slots new → is_some (slot_at new n) ≡ true → length slots ≤ length new → IsVacancy slots self.old → IsVacancy new self.new }
    {
        if n == self.taken && self.least < self.others {
            self.least = self.others;
        }
    }

    // The least number that no node has.
    pub fn find(&mut self, slots: &[Option<Node>]) -> u64
        requires { IsVacancy slots.now self.old }
        ensures number { result ≡ position_or_len is_none slots.now }
        ensures within { result ≤ length slots.now }
        ensures vacancy { IsVacancy slots.now self.new }
    {
        self.least = first_vacant(slots, self.least);
        self.least as u64
    }
}
