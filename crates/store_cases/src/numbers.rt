//! What no clause says: that the calls answer with ample memory.
use number_map::NumberMap;
use std::test::Fail;

/// The last value of a number stands, and the numbers come ascending.
#[test]
fn a_number_has_its_last_value(rt: HostRuntime) -> Result<(), Fail> {
    let mut map = NumberMap::new(rt.alloc());
    for (number, value) in [(3, 30), (1, 10), (3, 31)] {
        map.insert(number, value)?;
    }
    assert_eq!(rt; map.get(3).copied(), Some(31));
    assert_eq!(rt; map.get(2).copied(), None);
    let mut least = None;
    for (number, _) in map.iter() {
        if least.is_none() {
            least = Some(*number);
        }
    }
    assert_eq!(rt; least, Some(1));
    Ok(())
}
