// How the readings read octets, weigh symbols and add.
use weighing::hard::{Hard, HardSymbol};
use weighing::level::Level;
use weighing::soft::Soft;
use weighing::worst::Worst;
use weighing::{Reading, Weighing};

#[test]
fn hard_reads(rt: HostRuntime) {
    assert_eq!(rt; Hard::read(1), Some(HardSymbol::Bit(true)));
    assert_eq!(rt; Hard::read(2), Some(HardSymbol::Missing));
    assert_eq!(rt; Hard::read(3), None);
}

#[test]
fn hard_weighs(rt: HostRuntime) {
    assert_eq!(rt; Hard::cost(HardSymbol::Bit(true), false), 1);
    assert_eq!(rt; Hard::cost(HardSymbol::Bit(true), true), 0);
    assert_eq!(rt; Hard::cost(HardSymbol::Missing, false), 0);
}

#[test]
fn hard_sum_stops(rt: HostRuntime) {
    assert_eq!(rt; Hard::sum(u32::MAX, 1), 4_294_967_295);
    assert_eq!(rt; Hard::sum(4, 9), 13);
}

#[test]
fn soft_reads(rt: HostRuntime) {
    assert_eq!(rt; Soft::read(0x81), Some(Level { value: -127 }));
    assert_eq!(rt; Soft::read(0x7f), Some(Level { value: 127 }));
    assert_eq!(rt; Soft::read(0x80), None);
}

#[test]
fn soft_weighs(rt: HostRuntime) {
    assert_eq!(rt; Soft::cost(Level { value: -127 }, true), 127);
    assert_eq!(rt; Soft::cost(Level { value: -127 }, false), 0);
    assert_eq!(rt; Soft::cost(Level { value: 9 }, false), 9);
}

#[test]
fn worst_takes_the_larger(rt: HostRuntime) {
    assert_eq!(rt; Worst::sum(4, 9), 9);
    assert_eq!(rt; Worst::cost(Level { value: -20 }, true), 20);
    assert_eq!(rt; Worst::at_most(9, 4), false);
}
