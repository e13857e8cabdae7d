// Why no search is made.
ghost use Rattle.std.specs.Prelude.{◌≡◌};

use thiserror::Error;

// Why no search is made, and the number of the refusal.
#[derive(Clone, Copy, Debug, PartialEq, Error)]
pub enum FindRefusal {
    #[error("the tally, the target, the survivors or the path weights are short")]
    Short = 6,
}

impl FindRefusal {
    ghost use Rattle.search.specs.Found.{find_case};

    pub fn number(self) -> u8
        ensures { result ≡ (find_case self).number }
    {
        self as u8
    }
}
