// What a zone answers. Nothing changes here, and what an answer takes of memory is taken here.
ghost use Rattle.std.specs.Prelude.{◌≡◌, ◌≤◌, ◌-◌, pos, length, true, IfOk, IsOk, IsTrue, filter};
ghost use Rattle.std.specs.List.{AllByRecursion};
ghost use Rattle.dict_model.specs.Operation.{is_number, IsValue, IsAllowed, TakesNoMemory};
ghost use Rattle.dict_model.specs.Eviction as costs;
ghost use Rattle.dict_model.specs.Zone as zones;

use crate::operation::is_number;
use crate::{DictOp, DictReply, DictValue, Kept, ZoneSpec, kept};
use njs_text::{NoMemory, Text};
use std::alloc::Global;

fn yes_or_no(yes: bool) -> DictReply
    ensures { result ≡ zones.yes_or_no yes }
{
    if yes { DictReply::Yes } else { DictReply::No }
}

fn is_there(entries: &[Kept], moment: u64, key: &Text) -> bool
    ensures { result ≡ zones.is_there key.now (filter (zones.is_live moment) entries.now) }
{
    kept::found(entries, moment, key).is_some()
}

fn value_of(alloc: Global, entries: &[Kept], moment: u64, key: &Text) -> Result<DictReply, NoMemory>
    ensures { IfOk result (λ reply. reply ≡ zones.value_of (zones.found key.now (filter (zones.is_live moment) entries.now))) }
{
    match kept::found(entries, moment, key) {
        Some(entry) => Ok(DictReply::Value(entry.value.copy(alloc)?)),
        None => Ok(DictReply::Nothing),
    }
}

fn can_store(spec: &ZoneSpec, entries: &[Kept], moment: u64, key: &Text, value: &DictValue) -> bool
    requires { costs.total entries.now ≤ 9007199254740991 }
    ensures { result ≡ zones.can_store spec.now (filter (zones.is_live moment) entries.now) key.now value.now }
{
    let cost = kept::cost(key, value);
    cost <= spec.limit && (spec.evict || kept::others(entries, moment, key) + cost <= spec.limit)
}

fn store(
    spec: &ZoneSpec,
    entries: &[Kept],
    moment: u64,
    key: &Text,
    value: &DictValue,
    reply: DictReply,
) -> DictReply
    requires { costs.total entries.now ≤ 9007199254740991 }
    ensures { result ≡ (zones.store spec.now (zones.live_state entries.now moment) key.now value.now reply).0 }
{
    if can_store(spec, entries, moment, key, value) {
        reply
    } else {
        DictReply::Full
    }
}

fn add(spec: &ZoneSpec, entries: &[Kept], moment: u64, key: &Text, value: &DictValue) -> DictReply
    requires { costs.total entries.now ≤ 9007199254740991 }
    ensures { result ≡ (zones.done spec.now (zones.live_state entries.now moment) (DictOp.Add key.now value.now)).0 }
{
    if is_there(entries, moment, key) {
        DictReply::No
    } else {
        store(spec, entries, moment, key, value, DictReply::Yes)
    }
}

fn replace(
    spec: &ZoneSpec,
    entries: &[Kept],
    moment: u64,
    key: &Text,
    value: &DictValue,
) -> DictReply
    requires { costs.total entries.now ≤ 9007199254740991 }
    ensures { result ≡ (zones.done spec.now (zones.live_state entries.now moment) (DictOp.Replace key.now value.now)).0 }
{
    if is_there(entries, moment, key) {
        store(spec, entries, moment, key, value, DictReply::Yes)
    } else {
        DictReply::No
    }
}

// The number that an increment starts from.
#[tactic(auto, using(crate::proofs::Numbers::value_found))]
fn start(entries: &[Kept], moment: u64, key: &Text, initial: i64) -> i64
    requires values { AllByRecursion (λ e. IsValue true e.value) entries.now }
    requires initial { IsTrue (is_number initial) }
    ensures start { result ≡ zones.number_of initial (zones.found key.now (filter (zones.is_live moment) entries.now)) }
    ensures number { IsTrue (is_number result) }
{
    match kept::found(entries, moment, key) {
        Some(entry) => match &entry.value {
            DictValue::Num(number) => *number,
            DictValue::Str(_) => initial,
        },
        None => initial,
    }
}

// Stores the number that an increment comes to.
fn increment(spec: &ZoneSpec, entries: &[Kept], moment: u64, key: &Text, number: i64) -> DictReply
    requires { costs.total entries.now ≤ 9007199254740991 }
    ensures { result ≡ (zones.increment spec.now (zones.live_state entries.now moment) key.now number).0 }
{
    let value = DictValue::Num(number);
    if is_number(number) {
        store(
            spec,
            entries,
            moment,
            key,
            &value,
            DictReply::Number(number),
        )
    } else {
        DictReply::Outside
    }
}

#[tactic(auto, using(crate::proofs::Numbers::number_low, crate::proofs::Numbers::number_high))]
fn incr(
    spec: &ZoneSpec,
    entries: &[Kept],
    moment: u64,
    key: &Text,
    step: i64,
    initial: i64,
) -> DictReply
    requires within { costs.total entries.now ≤ 9007199254740991 }
    requires values { AllByRecursion (λ e. IsValue true e.value) entries.now }
    requires step { IsTrue (is_number step) }
    requires initial { IsTrue (is_number initial) }
    ensures { result ≡ (zones.done spec.now (zones.live_state entries.now moment) (DictOp.Incr key.now step initial)).0 }
{
    let number = start(entries, moment, key, initial) + step;
    increment(spec, entries, moment, key, number)
}

#[tactic(auto, using(crate::proofs::Costs::length_within))]
fn size(entries: &[Kept], moment: u64) -> DictReply
    requires { costs.total entries.now ≤ 9007199254740991 }
    ensures { result ≡ DictReply.Number (pos (length (filter (zones.is_live moment) entries.now))) }
{
    DictReply::Number(kept::count(entries, moment) as i64)
}

#[tactic(auto, using(crate::proofs::Costs::total_within))]
fn free_space(spec: &ZoneSpec, entries: &[Kept], moment: u64) -> DictReply
    requires limit { spec.now.limit ≤ 9007199254740991 }
    requires within { costs.total entries.now ≤ spec.now.limit }
    ensures { result ≡ DictReply.Number (pos (spec.now.limit - costs.total (filter (zones.is_live moment) entries.now))) }
{
    DictReply::Number((spec.limit - kept::total(entries, moment)) as i64)
}

/// The reply of a zone to an operation at a moment. Texts of the reply are copies.
pub(crate) fn answer(
    alloc: Global,
    spec: &ZoneSpec,
    entries: &[Kept],
    moment: u64,
    op: &DictOp,
) -> Result<DictReply, NoMemory>
    requires limit { spec.now.limit ≤ 9007199254740991 }
    requires within { costs.total entries.now ≤ spec.now.limit }
    requires values { AllByRecursion (λ e. IsValue spec.now.numeric e.value) entries.now }
    requires allowed { IsAllowed spec.now op.now }
    ensures reply { IfOk result (λ reply. reply ≡ (zones.done spec.now (zones.live_state entries.now moment) op.now).0) }
    ensures free { TakesNoMemory op.now → IsOk result }
{
    match op {
        DictOp::Add(key, value) => Ok(add(spec, entries, moment, key, value)),
        DictOp::Set(key, value) => Ok(store(spec, entries, moment, key, value, DictReply::Yes)),
        DictOp::Replace(key, value) => Ok(replace(spec, entries, moment, key, value)),
        DictOp::Incr(key, step, initial) => Ok(incr(spec, entries, moment, key, *step, *initial)),
        DictOp::Get(key) | DictOp::Pop(key) => value_of(alloc, entries, moment, key),
        DictOp::Has(key) | DictOp::Delete(key) => Ok(yes_or_no(is_there(entries, moment, key))),
        DictOp::Clear => Ok(DictReply::Yes),
        DictOp::Keys(most) => Ok(DictReply::Names(kept::names(alloc, entries, moment, *most)?)),
        DictOp::Size => Ok(size(entries, moment)),
        DictOp::FreeSpace => Ok(free_space(spec, entries, moment)),
    }
}
