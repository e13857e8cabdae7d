// From a report's octets to those of its first payload, and back.
ghost use Rattle.std.specs.Prelude.{◌≡◌};
ghost use Rattle.block.specs.Sizes.{OnlySize, back_checks, payload, plan_checks};
ghost use Rattle.tally_c.specs.Numbers.{ShowsLength, TellsLength};

use crate::TallyLength;
use block::{PlanRefusal, back, plan};

// A length or a refusal as C is handed it.
fn told(length: Result<usize, PlanRefusal>) -> TallyLength
    ensures { ShowsLength length result }
{
    match length {
        Ok(octets) => TallyLength { octets, refusal: 0 },
        Err(refusal) => TallyLength {
            octets: 0,
            refusal: refusal.number(),
        },
    }
}

// P, from T, L and k.
#[unsafe(no_mangle)]
pub extern "C" fn tally_plan(octets: usize, check: usize, k: usize) -> TallyLength
    ensures { TellsLength (plan_checks octets check k) (λ p. p ≡ payload octets check k) result }
{
    told(plan(octets, check, k))
}

// T, from P, L and k.
#[unsafe(no_mangle)]
pub extern "C" fn tally_back(payload: usize, check: usize, k: usize) -> TallyLength
    ensures { TellsLength (back_checks payload check k) (OnlySize payload check k) result }
{
    told(back(payload, check, k))
}
