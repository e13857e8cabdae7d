// From a report's octets to those of its first payload, and back.
ghost use Rattle.std.specs.Prelude.{◌≡◌, ◌≤◌, true, false, MatchOption};
ghost use Rattle.block.specs.Refusals.{Answers};
ghost use Rattle.block.specs.Sizes.{OnlySize, back_checks, check_permitted, payload, plan_case};
ghost use Rattle.block.specs.Sizes.{plan_checks, some_size};

use crate::sizes::permits_check;
use crate::{Size, SizeRefusal};
use thiserror::Error;

// Why no payload length, or no report length, can be answered.
#[derive(Clone, Copy, Debug, PartialEq, Error)]
pub enum PlanRefusal {
    #[error("{0}")]
    Size(SizeRefusal),
    // 3
    #[error("a rate sends at most 24 further columns")]
    Rate,
    // 5
    #[error("no report length has this payload length")]
    Length,
}

impl PlanRefusal {
    pub fn number(self) -> u8
        ensures { result ≡ (plan_case self).number }
    {
        // A cast gives no number here, since a refusal for the size carries its own.
        match self {
            PlanRefusal::Size(refusal) => refusal.number(),
            PlanRefusal::Rate => 3,
            PlanRefusal::Length => 5,
        }
    }
}

// P, from T, L and k. They come as numbers and no `Size`, since the call itself refuses what is
// none.
pub fn plan(octets: usize, check: usize, k: usize) -> Result<usize, PlanRefusal>
    ensures { Answers (plan_checks octets check k) plan_case
        (λ p. p ≡ payload octets check k) result }
{
    // by the case's name: of a derived `From` no clause says which case it makes
    let size = Size::new(octets, check).map_err(PlanRefusal::Size)?;
    if k > 24 {
        return Err(PlanRefusal::Rate);
    }
    Ok(size.payload_at(k))
}

// The report's length from 1 to 512 whose first payload has `p` octets. Each is asked by
// `Size::new`, since a closure that makes a size itself would have to be told its bounds.
fn octets_for(p: usize, check: usize, k: usize) -> Option<usize>
    requires { (check_permitted check ≡ true) × (k ≤ 24) }
    ensures { MatchOption result (some_size 512 p check k ≡ false)
        (λ octets. (some_size 512 p check k ≡ true) × OnlySize p check k octets) }
{
    (1..513).find(|octets| { Size::new(*octets, check).is_ok_and(|size| size.payload_at(k) == p) })
}

// T, from P, L and k, which come as numbers too.
pub fn back(p: usize, check: usize, k: usize) -> Result<usize, PlanRefusal>
    ensures { Answers (back_checks p check k) plan_case (λ t. OnlySize p check k t) result }
{
    if !permits_check(check) {
        return Err(PlanRefusal::Size(SizeRefusal::CheckLength));
    }
    if k > 24 {
        return Err(PlanRefusal::Rate);
    }
    octets_for(p, check, k).ok_or(PlanRefusal::Length)
}
