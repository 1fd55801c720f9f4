//! What no clause says: that the calls answer with ample memory.
use master_parts::{NumberTable, Stock, TxnSet};
use std::test::Fail;
use tm_base::{Page, Txn, Writer};

/// Values come and go under numbers.
#[test]
fn a_number_has_its_last_value(rt: HostRuntime) -> Result<(), Fail> {
    let mut table = NumberTable::new(rt.alloc());
    for (number, value) in [(3, 30), (1, 10), (3, 31)] {
        table.make_room(1)?;
        table.insert(number, value);
    }
    assert_eq!(rt; table.get(3).copied(), Some(31));
    table.remove(3);
    assert_eq!(rt; table.get(3).copied(), None);
    assert_eq!(rt; table.get(1).copied(), Some(10));
    Ok(())
}

/// A transaction is added and taken out, and a page too.
#[test]
fn what_is_added_goes(rt: HostRuntime) -> Result<(), Fail> {
    let txn = Txn {
        writer: Writer(2),
        number: 7,
    };
    let mut set = TxnSet::new(rt.alloc());
    set.insert(txn)?;
    assert_eq!(rt; set.contains(txn), true);
    set.remove(txn);
    assert_eq!(rt; set.contains(txn), false);
    let mut stock = Stock::new(rt.alloc());
    for page in [1025, 1026, 1027] {
        stock.push(Page(page))?;
    }
    stock.remove(Page(1026));
    stock.take_back();
    assert_eq!(rt; stock.as_slice(), [Page(1025)].as_slice());
    Ok(())
}
