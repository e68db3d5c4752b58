//! The law that a running arbiter stands at a point.
ghost use Rattle.std.specs.Prelude.{◌≡◌, ℕ, Some};
ghost use Rattle.qn_base.specs.declared.calls.Call.{Call};
ghost use Rattle.qn_base.specs.Calls.{blank};
ghost use Rattle.qn_base.specs.Plans.{Plan, left, question};
ghost use Rattle.qn_leases.specs.Points.{Point, StandsAt, Starting, after_made, asked_at};
ghost use Rattle.qn_leases.specs.Serving.{Served, arbiter_plan};

/// Law: a run of an arbiter begins at the first point; a call that it asks for is the one of the point where it stands; and after the call it
/// stands at the point after it, whatever the answer is.
pub fn law_points()
    ensures begins { (lease turns : ℕ) → StandsAt lease Starting turns (arbiter_plan lease turns) }
    ensures asks { (lease more : ℕ) (point : Point) (plan : Plan Served) (asked : Call) → StandsAt lease point more plan
        → question plan ≡ Some asked
        → asked_at point ≡ Some asked }
    ensures goes_on { (lease more : ℕ) (point : Point) (plan : Plan Served) (made : Call) → StandsAt lease point more plan
        → question plan ≡ Some (blank made)
        → (fewer : ℕ) × StandsAt lease (after_made lease point made) fewer (left plan made) }
{}
