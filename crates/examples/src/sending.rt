// Passages over the buffer of T = 1 and L = 4, which has 8 octets.
ghost use Rattle.std.specs.Prelude.{◌≡◌};

use block::SizeRefusal;
use sender::{Passage, PassageRefusal, Sender};
use std::mem::{self, ManuallyDrop};
use std::test::Fail;

const BUFFER: [u8; 8] = [0x80, 0x0b, 0x20, 0x60, 0x20, 0x62, 0x22, 0x60];

// A confirmed passage of one copy; one that is refused is let go.
fn send(
    sender: &mut Sender,
    buffer: &[u8],
    target: &mut [u8],
    count: usize,
) -> Result<(), PassageRefusal> {
    let mut passage = Passage::begin(sender.size(), &mut sender.cursor);
    passage.copy(buffer, target, count)?;
    passage.confirm();
    Ok(())
}

// However a copy ends, a passage that is let go leaves the sender as it was.
fn let_go(sender: &mut Sender, target: &mut [u8], count: usize)
    ensures { sender.new ≡ sender.old }
{
    let mut passage = Passage::begin(sender.size(), &mut sender.cursor);
    let _ = passage.copy(&BUFFER, target, count);
}

// So does a passage that is leaked, whose end never runs.
fn leak(sender: &mut Sender, target: &mut [u8], count: usize)
    ensures { sender.new ≡ sender.old }
{
    let mut passage = Passage::begin(sender.size(), &mut sender.cursor);
    let _ = passage.copy(&BUFFER, target, count);
    let _leaked = ManuallyDrop::new(passage);
}

#[test]
fn sends_round_after_round(rt: HostRuntime) -> Result<(), Fail> {
    let mut sender = Sender::new(1, 4)?;
    let mut target = [0; 4];
    send(&mut sender, &BUFFER, &mut target, 4)?;
    assert_eq!(rt; target, [0x80, 0x0b, 0x20, 0x60]);
    send(&mut sender, &BUFFER, &mut target, 3)?;
    assert_eq!(rt; target, [0x20, 0x62, 0x22, 0x60]);
    send(&mut sender, &BUFFER, &mut target, 3)?;
    assert_eq!(rt; target, [0x60, 0x80, 0x0b, 0x60]);
    assert_eq!(rt; sender.standing(), 2);
    Ok(())
}

#[test]
fn gives_up(rt: HostRuntime) -> Result<(), Fail> {
    let mut sender = Sender::new(1, 4)?;
    let mut target = [0; 8];
    send(&mut sender, &BUFFER, &mut target, 3)?;
    let_go(&mut sender, &mut target, 7);
    assert_eq!(rt; sender.standing(), 3);
    let mut passage = Passage::begin(sender.size(), &mut sender.cursor);
    passage.copy(&BUFFER, &mut target, 8)?;
    passage.give_up();
    assert_eq!(rt; sender.standing(), 3);
    Ok(())
}

#[test]
fn leaks(rt: HostRuntime) -> Result<(), Fail> {
    let mut sender = Sender::new(1, 4)?;
    let mut target = [0; 8];
    send(&mut sender, &BUFFER, &mut target, 3)?;
    leak(&mut sender, &mut target, 7);
    assert_eq!(rt; sender.standing(), 3);
    let mut passage = Passage::begin(sender.size(), &mut sender.cursor);
    passage.copy(&BUFFER, &mut target, 8)?;
    mem::forget(passage);
    assert_eq!(rt; target, [0x60, 0x20, 0x62, 0x22, 0x60, 0x80, 0x0b, 0x20]);
    assert_eq!(rt; sender.standing(), 3);
    Ok(())
}

#[test]
fn goes_on_in_one_passage(rt: HostRuntime) -> Result<(), Fail> {
    let mut sender = Sender::new(1, 4)?;
    let mut target = [0; 5];
    let mut passage = Passage::begin(sender.size(), &mut sender.cursor);
    passage.copy(&BUFFER, &mut target, 5)?;
    passage.copy(&BUFFER, &mut target, 2)?;
    assert_eq!(rt;
        passage.copy(&BUFFER, &mut target, 9),
        Err(PassageRefusal::Count)
    );
    passage.copy(&BUFFER, &mut target, 2)?;
    passage.confirm();
    assert_eq!(rt; target, [0x60, 0x80, 0x20, 0x60, 0x20]);
    assert_eq!(rt; sender.standing(), 1);
    Ok(())
}

#[test]
fn refuses(rt: HostRuntime) -> Result<(), Fail> {
    let mut sender = Sender::new(1, 4)?;
    let mut target = [7; 4];
    assert_eq!(rt;
        send(&mut sender, &BUFFER, &mut target, 0),
        Err(PassageRefusal::Count)
    );
    assert_eq!(rt;
        send(&mut sender, &[], &mut target, 9),
        Err(PassageRefusal::Count)
    );
    assert_eq!(rt;
        send(&mut sender, &BUFFER[0..7], &mut target, 1),
        Err(PassageRefusal::Short)
    );
    assert_eq!(rt;
        send(&mut sender, &BUFFER, &mut target, 5),
        Err(PassageRefusal::Short)
    );
    assert_eq!(rt; PassageRefusal::Count.number(), 8);
    assert_eq!(rt; PassageRefusal::Short.number(), 6);
    assert_eq!(rt; target, [7; 4]);
    assert_eq!(rt; sender.standing(), 0);
    Ok(())
}

#[test]
fn makes(rt: HostRuntime) {
    assert_eq!(rt; Sender::new(0, 5), Err(SizeRefusal::Octets));
    assert_eq!(rt; Sender::new(513, 4), Err(SizeRefusal::Octets));
    assert_eq!(rt; Sender::new(1, 5), Err(SizeRefusal::CheckLength));
}
