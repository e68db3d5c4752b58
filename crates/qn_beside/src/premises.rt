//! What the law of one lease rests on: its premises are met, and a faster clock of the arbiter breaks it.
ghost use Rattle.qn_beside.specs.Faster.{BrokenByFasterClock};
ghost use Rattle.qn_beside.specs.Met.{OneSideIsQuorate};

/// The premises of `law_one_lease_runs` are met: there is a joined run of two nodes and an arbiter, first quorate in one view and then
/// cut, in which one of them is quorate alone, by the arbiter's yes, while the other one runs with a view that has no member in common.
pub fn law_one_side_is_quorate()
    ensures { OneSideIsQuorate }
{}

/// The law of one lease rests on the arbiter's clock: where that may be 2 per cent fast there are events of the world beside an arbiter,
/// all other rules kept, after which two running nodes with disjoint present views are both quorate, for the least safe lease.
pub fn law_faster_clock_breaks_it()
    ensures { BrokenByFasterClock }
{}
