// The check field of a report by itself.
ghost use Rattle.std.specs.Prelude.{◌≡◌, length};
ghost use Rattle.block.specs.Checks.{report_check};
ghost use Rattle.block.specs.Refusals.{Answers};
ghost use Rattle.block.specs.Sizes.{size_case, size_checks};

use crate::{Size, SizeRefusal};

// The check field of a report: bit j is the coefficient of x^j.
pub fn check_field(octets: &[u8], check: usize) -> Result<u32, SizeRefusal>
    ensures { Answers (size_checks (length octets.now) check) size_case
        (λ field. field ≡ report_check octets.now (length octets.now) check) result }
{
    let size = Size::new(octets.len(), check)?;
    Ok(size.check_over(octets))
}
