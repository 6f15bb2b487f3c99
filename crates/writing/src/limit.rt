// Sizes that are added up: more than 65,536 is told as 65,537, so that no sum is too large to count.
ghost use Rattle.std.specs.Prelude.{◌≡◌, ◌+◌};
ghost use Rattle.writing.specs.Parts.{limited};

#[tactic(auto, using(model::proofs::Tests::tests), unfolding(crate::specs::Parts::limited))]
pub fn within_limit(size: usize) -> usize
    ensures { result ≡ limited size }
{
    size.min(65537)
}

#[tactic(auto, using(crate::proofs::Limits::saturated_limited))]
pub fn limited_sum(one: usize, other: usize) -> usize
    ensures { result ≡ limited (one + other) }
{
    within_limit(one.saturating_add(other))
}
