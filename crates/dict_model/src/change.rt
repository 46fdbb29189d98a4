// What an operation changes. Nothing here takes memory: the room for one more entry was made before.
ghost use Rattle.std.specs.Prelude.{◌≡◌, ◌≤◌, ◌<◌, ◌+◌, ◌^◌, true, false, cond, OnOk, IsOk, filter, option_map, IfSome, length, remove, slice_index_or, vec_len, vec_capacity};
ghost use Rattle.dict_model.specs.declared.operation.Kept.{Kept};
ghost use Rattle.dict_model.specs.Eviction as costs;
ghost use Rattle.dict_model.specs.Zone as zones;
ghost use Rattle.dict_model.specs.Zone.{IsValid, state_of};
ghost use Rattle.dict_model.specs.Operation.{IsSpec, IsValue, IsAllowed, is_number, is_storing};
ghost use Rattle.dict_model.specs.Changes.{is_yes, number_answered, if_stored};
ghost use Rattle.dict_model.specs.Places.{PlaceOf, Earliest, goes_first};

use crate::{DictOp, DictReply, DictValue, Kept, ZoneSpec, kept};
use njs_text::{NoMemory, Text};

// Where the key's entry stands.
fn place_of(entries: &[Kept], key: &Text) -> Option<usize>
    ensures { PlaceOf key.now entries.now result }
{
    for (place, entry) in entries.iter().enumerate() {
        if entry.key == *key {
            return Some(place);
        }
    }
    None
}

/// Removes the key's entry.
pub(crate) fn remove(entries: &mut Vec<Kept>, key: &Text)
    ensures { entries.new.items ≡ zones.without key.now entries.old.items }
{
    if let Some(place) = place_of(entries.as_slice(), key) {
        remove_at(entries, place);
    }
}

fn due(entry: &Kept) -> u64
    ensures { result ≡ costs.due entry.now }
{
    entry.expiry.unwrap_or(u64::MAX)
}

fn goes_first(entry: &Kept, key: &Text, so_far: Option<usize>, time: u64) -> bool
    ensures { result ≡ goes_first key.now so_far time entry.now }
{
    entry.key != *key && (so_far.is_none() || due(entry) < time)
}

// The place of the entry that goes first where room is made for one of the key.
fn earliest(entries: &[Kept], key: &Text) -> Option<usize>
    ensures { Earliest key.now entries.now result }
{
    let mut earliest = None;
    let mut time = 0;
    for (place, entry) in entries.iter().enumerate() {
        if goes_first(entry, key, earliest, time) {
            earliest = Some(place);
            time = due(entry);
        }
    }
    earliest
}

fn cost_at(entries: &[Kept], place: usize) -> u64
    requires { place < length entries.now }
    ensures { (e : Kept) × (e ≡ slice_index_or entries.now place e) × (result ≡ costs.entry_cost e) }
{
    let entry = &entries[place];
    kept::cost(&entry.key, &entry.value)
}

fn remove_at(entries: &mut Vec<Kept>, place: usize)
    requires { place < vec_len entries.old }
    ensures items { entries.new.items ≡ remove entries.old.items place }
    ensures len { vec_len entries.new + 1 ≡ vec_len entries.old }
    ensures capacity { vec_capacity entries.new ≡ vec_capacity entries.old }
{
    entries.remove(place);
}

// Removes the entries that expire first, but for the key's, until so much is free.
fn evict(entries: &mut Vec<Kept>, key: &Text, need: u64)
    requires { need ≤ costs.others key.now entries.old.items }
    ensures left { entries.new.items ≡ costs.left key.now need entries.old.items }
    ensures freed { costs.others key.now entries.new.items + need ≤ costs.others key.now entries.old.items }
    ensures len { vec_len entries.new ≤ vec_len entries.old }
    ensures capacity { vec_capacity entries.new ≡ vec_capacity entries.old }
{
    let mut need = need;
    while need > 0 {
        let Some(place) = earliest(entries.as_slice(), key) else {
            return;
        };
        need = need.saturating_sub(cost_at(entries.as_slice(), place));
        remove_at(entries, place);
    }
}

// Puts an entry in the place of the key's, or behind the others.
fn put(entries: &mut Vec<Kept>, new: Kept)
    requires { vec_len entries.old < vec_capacity entries.old }
    ensures { entries.new.items ≡ zones.put new entries.old.items }
{
    match place_of(entries.as_slice(), &new.key) {
        Some(place) => entries[place] = new,
        None => {
            let _ = entries.push(new);
        }
    }
}

fn expiry(spec: &ZoneSpec, moment: u64) -> Option<u64>
    requires spec { IsSpec spec.now }
    requires moment { moment < 2 ^ 53 }
    ensures { result ≡ option_map (λ time. moment + time) spec.now.timeout }
{
    match spec.timeout {
        Some(time) => Some(moment + time),
        None => None,
    }
}

// Stores a value that has room, or gets it by eviction.
fn store(spec: &ZoneSpec, entries: &mut Vec<Kept>, moment: u64, key: Text, value: DictValue)
    requires spec { IsSpec spec.now }
    requires valid { IsValid spec.now (state_of entries.old.items moment) }
    requires live { filter (zones.is_live moment) entries.old.items ≡ entries.old.items }
    requires value { IsValue spec.now.numeric value }
    requires fits { zones.can_store spec.now entries.old.items key value ≡ true }
    requires room { vec_len entries.old < vec_capacity entries.old }
    ensures stored { entries.new.items ≡ zones.stored spec.now (state_of entries.old.items moment) key value }
    ensures valid { IsValid spec.now (state_of entries.new.items moment) }
{
    let cost = kept::cost(&key, &value);
    let others = kept::others(entries.as_slice(), moment, &key);
    evict(entries, &key, (others + cost).saturating_sub(spec.limit));
    let expiry = expiry(spec, moment);
    put(entries, Kept { key, value, expiry });
}

fn store_if_yes(
    spec: &ZoneSpec,
    entries: &mut Vec<Kept>,
    moment: u64,
    key: Text,
    value: DictValue,
    reply: &DictReply,
)
    requires spec { IsSpec spec.now }
    requires valid { IsValid spec.now (state_of entries.old.items moment) }
    requires live { filter (zones.is_live moment) entries.old.items ≡ entries.old.items }
    requires value { IsValue spec.now.numeric value }
    requires fits { is_yes reply.now ≡ true → zones.can_store spec.now entries.old.items key value ≡ true }
    requires room { vec_len entries.old < vec_capacity entries.old }
    ensures stored { entries.new.items ≡ cond (is_yes reply.now) (zones.stored spec.now (state_of entries.old.items moment) key value) entries.old.items }
    ensures valid { IsValid spec.now (state_of entries.new.items moment) }
{
    if let DictReply::Yes = reply {
        store(spec, entries, moment, key, value);
    }
}

fn store_number(spec: &ZoneSpec, entries: &mut Vec<Kept>, moment: u64, key: Text, reply: &DictReply)
    requires spec { IsSpec spec.now }
    requires valid { IsValid spec.now (state_of entries.old.items moment) }
    requires live { filter (zones.is_live moment) entries.old.items ≡ entries.old.items }
    requires numeric { spec.now.numeric ≡ true }
    requires fits { IfSome (number_answered reply.now) (λ n. (is_number n ≡ true) × (zones.can_store spec.now entries.old.items key (DictValue.Num n) ≡ true)) }
    requires room { vec_len entries.old < vec_capacity entries.old }
    ensures stored { entries.new.items ≡ if_stored spec.now (state_of entries.old.items moment) key (number_answered reply.now) }
    ensures valid { IsValid spec.now (state_of entries.new.items moment) }
{
    if let DictReply::Number(number) = reply {
        store(spec, entries, moment, key, DictValue::Num(*number));
    }
}

/// Makes room for one more entry, where the operation may store one.
pub(crate) fn make_room(entries: &mut Vec<Kept>, op: &DictOp) -> Result<(), NoMemory>
    ensures items { entries.new.items ≡ entries.old.items }
    ensures room { OnOk result (is_storing op.now ≡ true → vec_len entries.new < vec_capacity entries.new) }
    ensures free { is_storing op.now ≡ false → IsOk result }
{
    if op.is_storing() {
        entries.try_reserve(1)?;
    }
    Ok(())
}

/// Changes the entries, of which none has expired by the moment, as an operation does that got this reply.
pub(crate) fn change(
    spec: &ZoneSpec,
    entries: &mut Vec<Kept>,
    moment: u64,
    op: DictOp,
    reply: &DictReply,
)
    requires spec { IsSpec spec.now }
    requires valid { IsValid spec.now (state_of entries.old.items moment) }
    requires live { filter (zones.is_live moment) entries.old.items ≡ entries.old.items }
    requires allowed { IsAllowed spec.now op }
    requires reply { reply.now ≡ (zones.done spec.now (state_of entries.old.items moment) op).0 }
    requires room { is_storing op ≡ true → vec_len entries.old < vec_capacity entries.old }
    ensures changed { entries.new.items ≡ (zones.done spec.now (state_of entries.old.items moment) op).1.entries }
    ensures valid { IsValid spec.now (state_of entries.new.items moment) }
{
    match op {
        DictOp::Add(key, value) | DictOp::Set(key, value) | DictOp::Replace(key, value) => {
            store_if_yes(spec, entries, moment, key, value, reply)
        }
        DictOp::Incr(key, _, _) => store_number(spec, entries, moment, key, reply),
        DictOp::Delete(key) | DictOp::Pop(key) => remove(entries, &key),
        DictOp::Clear => entries.clear(),
        DictOp::Get(_) | DictOp::Has(_) | DictOp::Keys(_) | DictOp::Size | DictOp::FreeSpace => {}
    }
}
