ghost use Rattle.std.specs.Prelude.{◌≡◌, OnOk, OnErr};
ghost use Rattle.tables.specs.Tables.{list_at, Gains, Keeps, Loses};

use indexmap::IndexMap;
use items::Items;
use std::alloc::{AllocError, Global};
use std::hash::Hash;

/// A list of numbers under each key, as the places at which the items with that key stand.
pub type Table<K> = IndexMap<K, Items<usize>>;

/// The list under the key, empty where none stands.
pub fn list_at<'t, K: Eq + Hash>(table: &'t Table<K>, key: &K) -> &'t [usize]
    ensures { result.now ≡ list_at K.eq table.now key.now }
{
    match table.get(key) {
        Some(list) => list.as_slice(),
        None => &[],
    }
}

/// Puts a number last in the list under the key.
pub fn push<K: Eq + Hash + Copy>(
    alloc: Global,
    table: &mut Table<K>,
    key: K,
    number: usize,
) -> Result<(), AllocError>
    ensures ok { OnOk result (Gains K.eq table.old table.new key number) }
    ensures err { OnErr result (Keeps K.eq table.old table.new) }
{
    if let Some(list) = table.get_mut(&key) {
        return list.push(number);
    }
    let mut list = Items::new(alloc);
    list.push(number)?;
    table.insert(key, list)?;
    Ok(())
}

/// Takes the last number of the list under the key away; nothing where the list is empty.
pub fn pop<K: Eq + Hash>(table: &mut Table<K>, key: &K)
    ensures { Loses K.eq table.old table.new key.now }
{
    if let Some(list) = table.get_mut(key) {
        list.pop();
    }
}
