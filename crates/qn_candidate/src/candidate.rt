//! What members say of themselves, and whom their leader names.
ghost use Rattle.std.specs.Prelude.{◌≡◌, ◌<◌, ℕ, not, ◌&&◌, ◌||◌, is_none, IfSome, slice_index};
ghost use Rattle.std.specs.Option.{option_map};
ghost use Rattle.qn_base.specs.Members.{is_member};
ghost use Rattle.qn_candidate.specs.Candidate.{best_of, can, hears_all, heavier, heaviest, holder_of, kept, meets, named_again, named_by, outweighs, puller, unknowing};

use qn_base::{Mask, Rank};

/// What a leader knows of the nodes: whom it sees, and what each said last.
#[derive(Clone, Copy, PartialEq, Eq, Debug)]
pub struct Facts {
    /// The nodes that the leader sees, and itself.
    pub sees: Mask,
    /// By rank, whom a node hears as its last Hello says; of the leader, whom it sees.
    pub hears: [Mask; 32],
    /// The nodes that read named views.
    pub knows: Mask,
    /// The nodes that may never hold.
    pub barred: Mask,
    /// The nodes that may not hold now.
    pub unfit: Mask,
    /// The nodes that ask for the resource.
    pub pulls: Mask,
    /// The nodes that hold.
    pub holds: Mask,
    /// By rank, how much a node is preferred: more is better.
    pub weights: [u8; 32],
}

/// Whom a view names: nobody, so that its least member is chosen; one member; or that none of its members may start.
#[derive(Clone, Copy, PartialEq, Eq, Debug)]
pub enum Name {
    Least,
    One(Rank),
    Nobody,
}

/// Whom a leader names in a view of these members, where the present view names `named`.
pub fn candidate_of(members: Mask, facts: &Facts, named: Option<Rank>) -> Name
    ensures { result ≡ named_by facts.now members named }
{
    if unknowing(members, facts).is_some() {
        return Name::Least;
    }
    let best = best_of(members, facts);
    let kept = kept(members, facts, named, best);
    match puller(members, facts).or(kept.or(best)) {
        Some(rank) => Name::One(rank),
        None => Name::Nobody,
    }
}

/// The least member that does not read named views.
fn unknowing(members: Mask, facts: &Facts) -> Option<Rank>
    ensures { option_map (λ rank. rank.0) result ≡ unknowing facts.now members }
{
    members.without(facts.knows).first(32)
}

/// Whether each of two nodes hears the other. Each meets itself.
pub fn meets(facts: &Facts, one: Rank, other: Rank) -> bool
    requires one { one.0 < 32 }
    requires other { other.0 < 32 }
    ensures { result ≡ meets facts.now one.0 other.0 }
{
    one == other
        || facts.hears[usize::from(one.0)].has(other) && facts.hears[usize::from(other.0)].has(one)
}

/// Whether a node meets each member that the leader sees.
pub fn hears_all(members: Mask, facts: &Facts, rank: Rank) -> bool
    requires { rank.0 < 32 }
    ensures { result ≡ hears_all facts.now members rank.0 }
{
    let seen = members.both(facts.sees);
    for other in 0..32u8 {
        if seen.has(Rank(other)) && !meets(facts, rank, Rank(other)) {
            return false;
        }
    }
    true
}

/// Whether a node is a member that may hold, may hold now, and hears the others.
fn can(members: Mask, facts: &Facts, rank: Rank) -> bool
    requires { rank.0 < 32 }
    ensures { result ≡ can facts.now members rank.0 }
{
    members.has(rank)
        && !facts.barred.has(rank)
        && !facts.unfit.has(rank)
        && hears_all(members, facts, rank)
}

/// The members that can.
fn able(members: Mask, facts: &Facts) -> Mask
    ensures { (j : ℕ) → j < 32 → is_member result j ≡ can facts.now members j }
{
    let mut found = Mask(0);
    for rank in 0..32u8 {
        if can(members, facts, Rank(rank)) {
            found = found.with(Rank(rank));
        }
    }
    found
}

/// The least member that asks for the resource and can.
fn puller(members: Mask, facts: &Facts) -> Option<Rank>
    ensures { option_map (λ rank. rank.0) result ≡ puller facts.now members }
{
    able(members, facts).both(facts.pulls).first(32)
}

/// The member that holds, of several whom the present view names, else the least.
fn holder_of(members: Mask, facts: &Facts, named: Option<Rank>) -> Option<Rank>
    ensures { option_map (λ rank. rank.0) result ≡ holder_of facts.now members named }
{
    let holding = members.both(facts.holds);
    match named {
        Some(rank) if holding.has(rank) => Some(rank),
        _ => holding.first(32),
    }
}

/// Whom the present view names, where it can.
fn named_again(members: Mask, facts: &Facts, named: Option<Rank>) -> Option<Rank>
    ensures { option_map (λ rank. rank.0) result ≡ named_again facts.now members named }
{
    match named {
        Some(rank) if rank.0 < 32 && can(members, facts, rank) => Some(rank),
        _ => None,
    }
}

/// The holder where it stays; where no member holds, whom the present view names, where it can.
fn kept(members: Mask, facts: &Facts, named: Option<Rank>, best: Option<Rank>) -> Option<Rank>
    requires { option_map (λ rank. rank.0) best ≡ best_of facts.now members }
    ensures { option_map (λ rank. rank.0) result ≡ kept facts.now members named }
{
    match holder_of(members, facts, named) {
        Some(rank) => {
            if stays(members, facts, rank, best) {
                Some(rank)
            } else {
                None
            }
        }
        None => named_again(members, facts, named),
    }
}

/// Whether the holder is named again: a member that is not barred, and fit or without anybody in its place.
fn stays(members: Mask, facts: &Facts, rank: Rank, best: Option<Rank>) -> bool
    ensures { result
        ≡ (is_member members rank.0 && not (is_member facts.now.barred rank.0)
        && (not (is_member facts.now.unfit rank.0) || is_none best)) }
{
    members.has(rank) && !facts.barred.has(rank) && (!facts.unfit.has(rank) || best.is_none())
}

/// The member of the greatest weight that can, the least of several.
fn best_of(members: Mask, facts: &Facts) -> Option<Rank>
    ensures { option_map (λ rank. rank.0) result ≡ best_of facts.now members }
{
    heaviest_of(able(members, facts), facts)
}

/// Of the ranks that are able the one of the greatest weight, the least of several.
fn heaviest_of(able: Mask, facts: &Facts) -> Option<Rank>
    ensures { option_map (λ rank. rank.0) result
        ≡ heaviest (λ rank. is_member able rank) (λ rank. slice_index facts.now.weights rank) 32 }
{
    let mut best: Option<Rank> = None;
    for rank in 0..32u8 {
        best = heavier(able, facts, best, Rank(rank));
    }
    best
}

/// The best so far, or a rank in its place that is able and weighs more.
fn heavier(able: Mask, facts: &Facts, best: Option<Rank>, rank: Rank) -> Option<Rank>
    requires found { IfSome best (λ found. found.0 < 32) }
    requires below { rank.0 < 32 }
    ensures value { option_map (λ rank. rank.0) result
        ≡ heavier (λ rank. is_member able rank) (λ rank. slice_index facts.now.weights rank)
        (option_map (λ rank. rank.0) best) rank.0 }
    ensures below { IfSome result (λ rank. rank.0 < 32) }
{
    if able.has(rank) && outweighs(facts, best, rank) {
        Some(rank)
    } else {
        best
    }
}

/// Whether a rank weighs more than the best so far, if there is one.
fn outweighs(facts: &Facts, best: Option<Rank>, rank: Rank) -> bool
    requires found { IfSome best (λ found. found.0 < 32) }
    requires below { rank.0 < 32 }
    ensures { result
        ≡ outweighs (λ rank. slice_index facts.now.weights rank)
        (option_map (λ rank. rank.0) best) rank.0 }
{
    match best {
        Some(found) => { facts.weights[usize::from(found.0)] < facts.weights[usize::from(rank.0)] }
        None => true,
    }
}
