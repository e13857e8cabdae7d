// What an order and a sheet refuse, and what a refused take leaves.
use code::{Order, OrderRefusal};
use search::Entry;
use sheet::{Sheet, TakeRefusal, Taken, WipeRefusal};
use std::test::Fail;
use weighing::hard::Hard;

const EMPTY: Entry<u32> = Entry { zero: 0, one: 0 };

#[test]
fn orders(rt: HostRuntime) -> Result<(), Fail> {
    let mut columns = [
        23, 22, 21, 20, 19, 18, 17, 16, 15, 14, 13, 12, 11, 10, 9, 8, 7, 6, 5, 4, 3, 2, 1, 0,
    ];
    assert_eq!(rt; Order::new(&columns)?.index_of(0), 23);
    assert_eq!(rt; Order::order_s().index_of(4), 1);
    assert_eq!(rt;
        Order::new(&columns[1..]).err(),
        Some(OrderRefusal::Columns)
    );
    columns[0] = 0;
    assert_eq!(rt; Order::new(&columns).err(), Some(OrderRefusal::Columns));
    Ok(())
}

// The checks of a take, each where those before it pass; of the 64 places a refused take writes
// none.
#[test]
fn takes(rt: HostRuntime) -> Result<(), Fail> {
    let mut tally = [EMPTY; 64];
    let mut sheet = Sheet::<Hard>::open(1, 4, Order::order_r(), &mut tally)?;
    assert_eq!(rt;
        sheet.take(&mut [EMPTY; 63], 8, &[]),
        Err(TakeRefusal::Tally)
    );
    assert_eq!(rt; sheet.take(&mut tally, 8, &[]), Err(TakeRefusal::Start));
    assert_eq!(rt; sheet.take(&mut tally, 7, &[]), Err(TakeRefusal::Count));
    assert_eq!(rt;
        sheet.take(&mut tally, 7, &[1; 72]),
        Err(TakeRefusal::Count)
    );
    assert_eq!(rt; sheet.take(&mut tally, 7, &[1; 4]), Err(TakeRefusal::Count));
    assert_eq!(rt;
        sheet.take(&mut tally, 7, &[0, 1, 2, 0, 1, 3, 0, 4]),
        Err(TakeRefusal::Symbol(5))
    );
    assert_eq!(rt; sheet.wipe(&mut [EMPTY; 63]), Err(WipeRefusal::Tally));
    assert_eq!(rt; (sheet.count(), tally[56].zero), (0, 0));
    assert_eq!(rt;
        sheet.take(&mut tally, 7, &[1; 64]),
        Ok(Taken { total: 64 })
    );
    assert_eq!(rt; tally[55].zero, 1);
    Ok(())
}

// A sheet takes 1,048,576 symbols and no more, and takes again when it is wiped.
#[test]
fn full(rt: HostRuntime) -> Result<(), Fail> {
    let mut tally = [EMPTY; 64];
    let mut sheet = Sheet::<Hard>::open(1, 4, Order::order_r(), &mut tally)?;
    let zeros = [0; 64];
    for _ in 0..16_384 {
        let _taken = sheet.take(&mut tally, 0, &zeros)?;
    }
    assert_eq!(rt; tally[0].one, 16_384);
    assert_eq!(rt; sheet.take(&mut tally, 0, &[3; 8]), Err(TakeRefusal::Full));
    sheet.wipe(&mut tally)?;
    assert_eq!(rt; sheet.take(&mut tally, 0, &zeros), Ok(Taken { total: 64 }));
    Ok(())
}
