//! The laws of running nodes beside a running arbiter.
ghost use Rattle.qn_beside.specs.Laws.{OneLeaseRuns, OneRunsBeside};

use qn_joined::{law_each_is_one_event, law_one_owner};
use qn_polls::law_polls_read_back;
use qn_safety::law_lease_any_numbers;

/// Law: at most one resource runs at any moment of a run beside an arbiter, whatever the arbiter does, for all safe timing.
pub fn law_one_owner_beside()
    ensures { OneRunsBeside }
{
    law_one_owner();
}

/// Law: beside one running arbiter no two running nodes with disjoint present views are both quorate at the present ticks of their
/// clocks, for valid settings with a device and without last_man_standing, expected votes of at least those of all nodes and of the
/// device, and every safe lease.
pub fn law_one_lease_runs()
    ensures { OneLeaseRuns }
{
    law_each_is_one_event();
    law_polls_read_back();
    law_lease_any_numbers();
}
