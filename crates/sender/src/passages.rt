// Passages: one begins, copies the next octets, and is confirmed or given up. Only a confirmed one
// moves its sender.
ghost use Rattle.std.specs.Prelude.{◌≡◌, ◌+◌, ◌*◌, ◌%◌, ◌<◌, ◌≤◌, length};
ghost use Rattle.sender.specs.Passages.{Begins, Confirms, Copies, GivesUp, held, passage_case};
ghost use Rattle.sender.specs.Passages.{sent};

use block::Size;
use thiserror::Error;

// Why a passage copies nothing, and the number of each refusal.
#[derive(Clone, Copy, Debug, PartialEq, Error)]
pub enum PassageRefusal {
    #[error("a copy has 1 to 4 * N octets")]
    Count = 8,
    #[error("the buffer has under 4 * N octets, or the target under the copy's count")]
    Short = 6,
}

impl PassageRefusal {
    pub fn number(self) -> u8
        ensures { result ≡ (passage_case self).number }
    {
        self as u8
    }
}

// A piece that is being sent: a guard over a sender's cursor. Copies move the passage's own
// standing, confirming moves the cursor there, and any other end writes back what the cursor was.
pub struct Passage<'a> {
    cursor: &'a mut usize,
    before: usize,
    standing: usize,
    round: usize,
}

impl Drop for Passage<'_> {
    // Puts the old standing back.
    fn drop(self)
        ensures { GivesUp (held self.entry) self.exit.0.now }
    {
        *self.cursor = self.before;
        // Each field is named, since `..` would let the passage go once more.
        let Self {
            cursor: _,
            before: _,
            standing: _,
            round: _,
        } = self;
    }
}

// Octet `p` of a round of so many, of which octet 0 comes again behind the last: by a comparison,
// since at most one round has gone by.
fn octet_in_round(p: usize, round: usize) -> usize
    requires { p < 2 * round }
    ensures { result ≡ p % round }
{
    if p < round { p } else { p - round }
}

// Fills the target, which is at most a round long, from octet `start` of the round on, octet 0
// after the last; answers the octet behind. It goes in two pieces, up to the round's end and from
// its beginning, so that no octet costs more than its copy.
fn copy_round(round: &[u8], start: usize, target: &mut [u8]) -> usize
    requires { (0 < length round.now) × (length target.old ≤ length round.now) }
    ensures wrote { target.new ≡ sent round.now (length round.now) start (length target.old) }
    ensures behind { result ≡ (start + length target.old) % length round.now }
{
    let first = start % round.len();
    let behind = octet_in_round(first + target.len(), round.len());
    let (ahead, over) = target.split_at_mut(target.len().min(round.len() - first));
    ahead.copy_from_slice(&round[first..first + ahead.len()]);
    over.copy_from_slice(&round[..over.len()]);
    behind
}

impl<'a> Passage<'a> {
    // A passage from where the cursor stands, over the buffer of a block of this size.
    pub fn begin(size: Size, cursor: &'a mut usize) -> Passage<'a>
        ensures does { Begins size.octets size.check cursor.old (held result) }
        ensures same { result.cursor.ghost_name ≡ cursor.entry.ghost_name }
    {
        let before = *cursor;
        let round = 4 * size.block_octets();
        Passage {
            cursor,
            before,
            standing: before,
            round,
        }
    }

    // Copies the next octets to the target's front; the sender stays where it is. `count` stands
    // beside the target, so that a count above a round and a target that is too short are told
    // apart.
    pub fn copy(
        &mut self,
        buffer: &[u8],
        target: &mut [u8],
        count: usize,
    ) -> Result<(), PassageRefusal>
        ensures does { Copies buffer.now target.old target.new count
            (held self.old) (held self.new) result }
        ensures same { self.new.cursor.ghost_name ≡ self.old.cursor.ghost_name }
    {
        if count == 0 || count > self.round {
            return Err(PassageRefusal::Count);
        }
        if buffer.len() < self.round || target.len() < count {
            return Err(PassageRefusal::Short);
        }
        self.standing = copy_round(&buffer[..self.round], self.standing, &mut target[..count]);
        Ok(())
    }

    // Puts the old standing back, as does letting the passage go.
    pub fn give_up(self)
        ensures { GivesUp (held self.entry) self.exit.0.now }
    {
        let _given_up = self;
    }

    // Moves the sender behind the last octet that was copied.
    pub fn confirm(self)
        ensures { Confirms (held self.entry) self.exit.0.now }
    {
        *self.cursor = self.standing;
        // Each field is named, since `..` would let the passage go, which puts the old standing
        // back.
        let Self {
            cursor: _,
            before: _,
            standing: _,
            round: _,
        } = self;
    }
}
