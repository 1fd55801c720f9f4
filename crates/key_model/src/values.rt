//! The committed values, and how those of a transaction enter them.
ghost use Rattle.std.specs.Prelude.{◌≡◌, OnOk, OnErr};
ghost use Rattle.std.specs.FinMap as fin;
ghost use Rattle.key_model.specs.Inside.{valued, HasPlaces};
ghost use Rattle.key_model.specs.After.{with_all};

use tm_base::{ByteList, ItemList, Mem, RowKey, RowMap, TryCopy};

/// A key with its committed value.
#[derive(Debug, Drop, PartialEq, Eq)]
pub struct Entry {
    pub table: u16,
    pub key: ByteList,
    pub value: ByteList,
}

/// Entries, ascending by table and key.
pub type EntryList = ItemList<Entry>;

/// A place for each row that may have a committed value: an empty place counts as no row. So a
/// transaction's values can enter without memory once there are places for them.
pub type Places = RowMap<Option<ByteList>>;

/// Makes an empty place for each value that is to enter and has none. No value changes, also where
/// memory is wanting.
pub fn reserve(places: &mut Places, writes: &Places) -> Mem<()>
    ensures same { valued places.new ≡ valued places.old }
    ensures ready { OnOk result (HasPlaces places.new (fin.entries writes.now)) }
{
    for (key, value) in writes.iter() {
        if value.is_some() && places.get(key).is_none() {
            places.insert(key.copy()?, None)?;
        }
    }
    Ok(())
}

/// Enters the values, and takes away the rows that are deleted.
pub fn enter(places: &mut Places, writes: Places)
    requires { HasPlaces places.old (fin.entries writes) }
    ensures { valued places.new ≡ with_all (valued places.old) (fin.entries writes) }
{
    for (key, value) in writes.into_rows() {
        if value.is_some() {
            let _ = places.insert(key, value);
        } else {
            let _ = places.remove(&key);
        }
    }
}
