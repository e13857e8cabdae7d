// Reports of one octet with a check of four bits: what is heard of them, and what is named.
use code::Order;
use search::{Entry, FindRefusal, Scratch};
use sheet::Sheet;
use std::test::Fail;
use weighing::Reading;
use weighing::hard::Hard;
use weighing::soft::Soft;
use weighing::worst::Worst;

// The 64 bits of the buffer of hex 80, with that of step 0 turned.
const TURNED: [u8; 64] = [
    1, 0, 0, 0, 0, 0, 0, 1, 1, 1, 0, 1, 0, 0, 0, 0, 0, 0, 0, 0, 0, 1, 0, 0, 0, 0, 0, 0, 0, 1, 1, 0,
    0, 0, 0, 0, 0, 1, 0, 0, 0, 1, 0, 0, 0, 1, 1, 0, 0, 1, 0, 0, 0, 1, 0, 0, 0, 0, 0, 0, 0, 1, 1, 0,
];

// What a reading names by these octets: the first octet of the message, and its weight.
fn named<R: Reading>(
    tally: &mut [Entry<R::Value>],
    paths: &mut [Option<R::Value>],
    octets: &[u8],
) -> Option<(u8, R::Value)> {
    let mut sheet = Sheet::<R>::open(1, 4, Order::order_r(), tally).ok()?;
    let _taken = sheet.take(tally, 0, octets).ok()?;
    let mut target = [0; 2];
    let mut scratch = Scratch {
        survivors: &mut [0; 16],
        paths,
    };
    let decoded = sheet.decode(tally, &mut target, &mut scratch).ok()?;
    Some((target[0], decoded.weight))
}

#[test]
fn one_turned_bit(rt: HostRuntime) {
    let mut tally = [Entry { zero: 0, one: 0 }; 64];
    let mut paths = [None; 32];
    assert_eq!(rt;
        named::<Hard>(&mut tally, &mut paths, &TURNED),
        Some((0x80, 1))
    );
}

// Step 0 is heard as +9, steps 7 and 14 as -20, and the others of output 1 as -4.
#[test]
fn levels(rt: HostRuntime) {
    let mut symbols = [0xfc; 16];
    symbols[0] = 9;
    symbols[7] = 0xec;
    symbols[14] = 0xec;
    let mut soft = [Entry { zero: 0, one: 0 }; 64];
    let mut worst = [Entry { zero: 0, one: 0 }; 64];
    assert_eq!(rt;
        named::<Soft>(&mut soft, &mut [None; 32], &symbols),
        Some((0, 9))
    );
    let named = named::<Worst>(&mut worst, &mut [None; 32], &symbols);
    assert_eq!(rt; named.map(|(_octet, weight)| weight), Some(4));
}

#[test]
fn too_little_room(rt: HostRuntime) -> Result<(), Fail> {
    let mut tally = [Entry { zero: 0, one: 0 }; 64];
    let sheet = Sheet::<Worst>::open(1, 4, Order::order_r(), &mut tally)?;
    let mut scratch = Scratch {
        survivors: &mut [0; 16],
        paths: &mut [None; 32],
    };
    let decoded = sheet.decode(&tally, &mut [0; 1], &mut scratch);
    assert_eq!(rt; decoded.err(), Some(FindRefusal::Short));
    Ok(())
}
