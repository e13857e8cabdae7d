// A payload that comes back, and a run that is refused at its opening.
use block::PlanRefusal;
use nearest::{nearest_message, undamaged_payload};
use search::{Entry, Scratch};
use sheet::OpenRefusal;
use weighing::soft::Soft;

// What an undamaged payload names: the octet and its weight.
fn echo(report: u8, k: usize) -> Result<Option<(u8, u32)>, PlanRefusal> {
    let mut target = [0; 2];
    let run = undamaged_payload(
        report,
        k,
        &mut [0; 8],
        &mut [Entry { zero: 7, one: 7 }; 64],
        &mut target,
    )?;
    Ok(run.decoded.ok().map(|decoded| (target[0], decoded.weight)))
}

#[test]
fn an_undamaged_payload_comes_back(rt: HostRuntime) {
    assert_eq!(rt; echo(0x81, 0), Ok(Some((0x81, 0))));
    assert_eq!(rt; echo(0x81, 24), Ok(Some((0x81, 0))));
    assert_eq!(rt; echo(0x81, 25), Err(PlanRefusal::Rate));
}

#[test]
fn a_run_wants_a_whole_tally(rt: HostRuntime) {
    let mut tally = [Entry { zero: 7, one: 7 }; 63];
    let mut scratch = Scratch {
        survivors: &mut [0; 16],
        paths: &mut [None; 32],
    };
    let run = nearest_message::<Soft>(&mut tally, 0, &[], &mut [0; 2], &mut scratch);
    assert_eq!(rt; run.err(), Some(OpenRefusal::Tally));
    assert_eq!(rt; tally[0].zero, 7);
}
