// What a list of entries holds at a moment.
ghost use Rattle.std.specs.Prelude.{◌≡◌, ◌≤◌, ◌++◌, filter, length, encode_utf8_all, map, option_map, IfOk, take, vec_len, vec_capacity};
ghost use Rattle.dict_model.specs.Eviction as costs;
ghost use Rattle.dict_model.specs.Zone as zones;

use crate::{DictValue, Kept};
use njs_text::{List, NoMemory, Text};
use std::alloc::Global;

#[tactic(auto, using(crate::proofs::Costs::few_bytes))]
fn text_bytes(text: &Text) -> u64
    ensures bytes { result ≡ length (encode_utf8_all text.now) }
    ensures few { result ≤ 4194304 }
{
    text.as_bytes().len() as u64
}

fn value_bytes(value: &DictValue) -> u64
    ensures bytes { result ≡ costs.value_bytes value.now }
    ensures few { result ≤ 4194304 }
{
    match value {
        DictValue::Str(text) => text_bytes(text),
        DictValue::Num(_) => 8,
    }
}

/// What a key with a value costs in a zone.
pub(crate) fn cost(key: &Text, value: &DictValue) -> u64
    ensures bytes { result ≡ costs.cost key.now value.now }
    ensures few { result ≤ 8388672 }
{
    64 + text_bytes(key) + value_bytes(value)
}

fn is_live(entry: &Kept, moment: u64) -> bool
    ensures { result ≡ zones.is_live moment entry.now }
{
    match entry.expiry {
        None => true,
        Some(expiry) => moment < expiry,
    }
}

/// The entry of a key, unless it has expired by the moment.
pub(crate) fn found<'a>(entries: &'a [Kept], moment: u64, key: &Text) -> Option<&'a Kept>
    ensures { option_map (λ e. e.now) result ≡ zones.found key.now (filter (zones.is_live moment) entries.now) }
{
    for entry in entries {
        if is_live(entry, moment) && entry.key == *key {
            return Some(entry);
        }
    }
    None
}

/// The sum of costs, without the key's entry and what has expired by the moment.
#[tactic(auto, using(crate::proofs::Costs::others_within))]
pub(crate) fn others(entries: &[Kept], moment: u64, key: &Text) -> u64
    requires { costs.total entries.now ≤ 9007199254740991 }
    ensures is { result ≡ costs.others key.now (filter (zones.is_live moment) entries.now) }
    ensures within { result ≤ costs.total entries.now }
{
    let mut sum = 0;
    for entry in entries {
        if is_live(entry, moment) && entry.key != *key {
            sum += cost(&entry.key, &entry.value);
        }
    }
    sum
}

/// The sum of costs, without what has expired by the moment.
#[tactic(auto, using(crate::proofs::Costs::total_within))]
pub(crate) fn total(entries: &[Kept], moment: u64) -> u64
    requires { costs.total entries.now ≤ 9007199254740991 }
    ensures { result ≡ costs.total (filter (zones.is_live moment) entries.now) }
{
    let mut sum = 0;
    for entry in entries {
        if is_live(entry, moment) {
            sum += cost(&entry.key, &entry.value);
        }
    }
    sum
}

/// How many entries there are that haven't expired by the moment.
pub(crate) fn count(entries: &[Kept], moment: u64) -> usize
    ensures is { result ≡ length (filter (zones.is_live moment) entries.now) }
    ensures few { result ≤ length entries.now }
{
    entries
        .iter()
        .filter(|entry| is_live(entry, moment))
        .count()
}

/// The first keys, at most so many, of the entries that haven't expired by the moment.
pub(crate) fn names(
    alloc: Global,
    entries: &[Kept],
    moment: u64,
    most: u32,
) -> Result<List<Text>, NoMemory>
    ensures { IfOk result (λ names. names ≡ take most (map (λ e. e.key) (filter (zones.is_live moment) entries.now))) }
{
    let mut names = List::new(alloc);
    let mut left = most;
    for entry in entries {
        if left == 0 {
            return Ok(names);
        }
        if is_live(entry, moment) {
            names.push(entry.key.copy(alloc)?)?;
            left -= 1;
        }
    }
    Ok(names)
}

/// Removes what has expired by the moment.
pub(crate) fn expire(entries: &mut Vec<Kept>, moment: u64)
    ensures items { entries.new.items ≡ filter (zones.is_live moment) entries.old.items }
    ensures len { vec_len entries.new ≤ vec_len entries.old }
    ensures capacity { vec_capacity entries.new ≡ vec_capacity entries.old }
{
    entries.retain(|entry| is_live(entry, moment));
}
