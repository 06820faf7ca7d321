// What holds of takings whatever is called.

ghost use Rattle.fc_plan.specs.Laws.{ApartLaw, CanLaw, CutLaw, LeftLaw, NewIdsLaw, NothingLaw, OrderLaw, SecondLaw, ShortLaw, TwoLaw, UnitsLaw};

/// The order of the parts does not matter.
pub fn any_order()
    ensures { OrderLaw }
{}

/// One taking leaves enough for a second.
pub fn second_taking()
    ensures { SecondLaw }
{}

/// What parts leave of holes does not hang on their order.
pub fn same_rest()
    ensures { LeftLaw }
{}

/// The parts of a plan are apart.
pub fn apart_parts()
    ensures { ApartLaw }
{}

/// Nothing taken leaves all.
pub fn nothing_taken()
    ensures { NothingLaw }
{}

/// The bits of some bytes are whole sectors.
pub fn whole_units()
    ensures { UnitsLaw }
{}

/// The parts of a plan can be cut.
pub fn cut_plans()
    ensures { CutLaw }
{}

/// A plan can be carried out on the map from which it was made.
pub fn plans_can_be_taken()
    ensures { CanLaw }
{}

/// The plans for an object and for a grown directory share neither bits nor an identifier.
pub fn two_plans()
    ensures { TwoLaw }
{}

/// New identifiers rise, and fit a map's runs.
pub fn new_ids_rise()
    ensures { NewIdsLaw }
{}

/// If a command is not short of space, neither of its plans is refused.
pub fn plans_exist()
    ensures { ShortLaw }
{}
