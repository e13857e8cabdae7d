// The letters of the readings.
ghost use Rattle.std.specs.Prelude.{◌≡◌, ℕ};
ghost use Rattle.listing.specs.Captures.{hard_letter, letters, soft_letter, worst_letter};

use weighing::Reading;
use weighing::hard::Hard;
use weighing::soft::Soft;
use weighing::worst::Worst;

// A reading with the letter by which a capture names it.
pub trait Lettered: Reading {
    const LETTER: u8;

    ghost LETTER: { ℕ };
}

impl Lettered for Hard {
    const LETTER: u8 = b'H';

    ghost LETTER = { hard_letter };
}

impl Lettered for Soft {
    const LETTER: u8 = b'S';

    ghost LETTER = { soft_letter };
}

impl Lettered for Worst {
    const LETTER: u8 = b'W';

    ghost LETTER = { worst_letter };
}

// The letters of the hard, the soft and the worst reading, in this order.
pub fn known_letters() -> [u8; 3]
    ensures are { result ≡ letters }
    ensures hard { ⟦<Hard as Lettered>⟧.LETTER ≡ hard_letter }
    ensures soft { ⟦<Soft as Lettered>⟧.LETTER ≡ soft_letter }
    ensures worst { ⟦<Worst as Lettered>⟧.LETTER ≡ worst_letter }
{
    [Hard::LETTER, Soft::LETTER, Worst::LETTER]
}
