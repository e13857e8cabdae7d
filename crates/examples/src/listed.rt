// The first lines of small captures, by readings with tallies of several lengths.
use listing::{Buffers, ByLetter, Lettered, list};
use search::Entry;
use std::alloc::Global;
use std::fmt;
use std::test::Fail;
use weighing::hard::Hard;
use weighing::soft::Soft;
use weighing::worst::Worst;

// A capture that opens a sheet for one octet and four check bits, and another that begins with no
// letter.
const OPENING: [u8; 5] = [b'H', 1, 1, 0, 4];

const NO_LETTER: [u8; 5] = [b'h', 1, 1, 0, 4];

const EMPTY: Entry<u32> = Entry { zero: 0, one: 0 };

// The text of the first line, or of none where the letter is another reading's.
fn first_line<R: Lettered>(
    heap: Global,
    capture: &[u8],
    tally: &mut [Entry<R::Value>],
    paths: &mut [Option<R::Value>; 32],
) -> Result<String, Fail>
where
    R::Value: fmt::Display,
{
    match list::<R>(capture, Buffers { tally, paths }) {
        ByLetter::OfAnother(_) => Ok(format!(in heap; "another's")?),
        ByLetter::Lines(lines) => {
            let mut lines = lines;
            match lines.next() {
                Some(line) => Ok(format!(in heap; "{line}")?),
                None => Ok(format!(in heap; "no line")?),
            }
        }
    }
}

#[test]
fn room(rt: HostRuntime) -> Result<(), Fail> {
    let short = first_line::<Hard>(rt.alloc(), &OPENING, &mut [EMPTY; 63], &mut [None; 32])?;
    assert_eq!(rt; short.as_str(), "F 1 2 S 6");
    let enough = first_line::<Hard>(rt.alloc(), &OPENING, &mut [EMPTY; 64], &mut [None; 32])?;
    assert_eq!(rt; enough.as_str(), "E 1");
    Ok(())
}

#[test]
fn letters(rt: HostRuntime) -> Result<(), Fail> {
    let soft = first_line::<Soft>(rt.alloc(), &OPENING, &mut [EMPTY; 64], &mut [None; 32])?;
    assert_eq!(rt; soft.as_str(), "another's");
    let worst = first_line::<Worst>(rt.alloc(), &NO_LETTER, &mut [], &mut [None; 32])?;
    assert_eq!(rt; worst.as_str(), "F 0 0 L 12");
    Ok(())
}
