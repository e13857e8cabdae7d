// A short sending by the calls themselves.
ghost use Rattle.std.specs.Prelude.{◌≡◌};
ghost use Rattle.block.specs.Refusals.{Answers};
ghost use Rattle.sender.specs.Passages.{copy_checks, passage_case, sent};
ghost use Rattle.sender.specs.Sendings.{Sending};

use crate::{Passage, PassageRefusal, Sender};

// What a short sending leaves: the sender, and what its refused copy answered.
#[derive(Debug, PartialEq, Drop)]
pub struct ShortSending {
    pub sender: Sender,
    pub refused: Result<(), PassageRefusal>,
}

// A copy of no octet is refused, and three octets are then copied and confirmed; two more are
// copied and given up.
pub fn short_sending(buffer: &[u8; 8], kept: &mut [u8; 3], given_up: &mut [u8; 2]) -> ShortSending
    ensures sending { Sending 1 4 buffer.now result.sender.cursor kept.new 3 }
    ensures refused { Answers (copy_checks 8 8 3 0) passage_case (λ _. ⊥) result.refused }
    ensures kept { kept.new ≡ sent buffer.now 8 0 3 }
    ensures given_up { given_up.new ≡ sent buffer.now 8 3 2 }
    ensures size { (result.sender.size.octets ≡ 1) × (result.sender.size.check ≡ 4) }
    ensures stands { result.sender.cursor ≡ 3 }
{
    let mut sender = Sender::new(1, 4).unwrap();
    let mut first = Passage::begin(sender.size(), &mut sender.cursor);
    let refused = first.copy(buffer, kept, 0);
    first.copy(buffer, kept, 3).unwrap();
    first.confirm();
    let mut second = Passage::begin(sender.size(), &mut sender.cursor);
    second.copy(buffer, given_up, 2).unwrap();
    second.give_up();
    ShortSending { sender, refused }
}
