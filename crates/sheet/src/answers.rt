// What the calls of a sheet answer.
ghost use Rattle.std.specs.Prelude.{◌≡◌, Decides};
ghost use Rattle.code.specs.Shapes.{Shape};

// What a take answers.
#[derive(Clone, Copy, Debug, PartialEq)]
pub struct Taken {
    // how many symbols were taken since the opening or the last wipe
    pub total: usize,
}

// What is said of a message that was named: whether its check is that of the bits before it.
#[derive(Clone, Copy, Debug, PartialEq)]
pub enum Verdict {
    Fits,
    DoesNotFit,
}

// What a decode answers: the weight of the message that it named, and the verdict on it.
#[derive(Clone, Copy, Drop)]
pub struct Decoded<V> {
    pub weight: V,
    pub verdict: Verdict,
}

impl Verdict {
    ghost use Rattle.std.specs.Prelude.{ℕ, List, Bool};
    ghost use Rattle.block.specs.Checks.{CheckFits};
    ghost use Rattle.sheet.specs.Verdicts.{IsVerdict};

    // The verdict on a message whose check fits, or does not.
    pub(crate) fn of(check_fits: bool) -> Verdict
        ensures { (shape : Shape) (message : List Bool)
            → Decides check_fits (CheckFits shape.octets shape.check message)
            → IsVerdict shape message result }
    {
        if check_fits {
            Verdict::Fits
        } else {
            Verdict::DoesNotFit
        }
    }
}
