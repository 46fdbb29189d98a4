// Calls of several passes. The numbers follow from one history: each call of `Incr` adds 1.
ghost use Rattle.std.specs.Prelude.{◌≡◌, ◌<◌, ◌++◌, [], ◌∷◌, true, All, length, IfOk, vec_len};
ghost use Rattle.dict_model.specs.Operation.{IsSpec};
ghost use Rattle.dict_pass.specs.Callers.{IsOfNumbers, KnownAt, SameZones, specs_of};

use super::*;
use dict_lock::SplitStop;
use dict_model::{DictOp, DictReply, DictValue, Dicts, ZoneSpec};
use njs_text::{NoMemory, Text};
use std::alloc::Global;
use std::sync::Wait;
use std::test::*;
use std::thread::{Threads, join_mut};

fn text(alloc: Global, word: &str) -> Result<Text, NoMemory> {
    match Text::from_utf8(alloc, word.as_bytes()) {
        Ok(text) => Ok(text),
        Err(_) => Err(NoMemory),
    }
}

fn numbers(alloc: Global) -> Result<ZoneSpec, NoMemory>
    ensures spec { IfOk result (λ spec. IsSpec spec) }
    ensures numeric { IfOk result (λ spec. spec.numeric ≡ true) }
{
    Ok(ZoneSpec {
        name: text(alloc, "z")?,
        limit: 1024,
        timeout: None,
        numeric: true,
        evict: false,
    })
}

// One zone of numbers.
fn one_zone(alloc: Global) -> Result<Zones, NoMemory>
    ensures { IfOk result (λ zones. IsOfNumbers zones 0) }
{
    let specs = [numbers(alloc)?];
    Zones::open(alloc, &specs)
}

fn add_one<D: Dicts>(alloc: Global, dicts: &mut D, reading: u32) -> Result<DictReply, NoMemory>
    requires { IsOfNumbers (D.specs dicts.old) 0 }
    ensures specs { D.specs dicts.new ≡ D.specs dicts.old }
    ensures later { D.later dicts.old dicts.new }
{
    match text(alloc, "n") {
        Ok(key) => dicts.call(alloc, 0, DictOp::Incr(key, 1, 0), u64::from(reading)),
        Err(NoMemory) => Err(NoMemory),
    }
}

fn get<D: Dicts>(alloc: Global, dicts: &mut D) -> Result<DictReply, NoMemory>
    requires { IsOfNumbers (D.specs dicts.old) 0 }
{
    let key = text(alloc, "n")?;
    dicts.call(alloc, 0, DictOp::Get(key), 5)
}

// The first call of a pass that has made none is its one entry in the history.
fn first_get<R: Wait>(alloc: Global, pass: &mut Pass<'_, R>) -> Result<DictReply, NoMemory>
    requires numbers { IsOfNumbers (specs_of pass.old) 0 }
    requires none { KnownAt pass.old 0 (λ k. k.mine ≡ []) }
    ensures { IfOk result (λ _. KnownAt pass.new 0 (λ k. length k.mine ≡ 1)) }
{
    let key = text(alloc, "n")?;
    pass.ask(alloc, 0, DictOp::Get(key), 5)
}

// Adds so many times, and says whether each call answered a number.
fn add_many<D: Dicts>(alloc: Global, dicts: &mut D, times: u32) -> bool
    requires { IsOfNumbers (D.specs dicts.old) 0 }
    ensures { D.later dicts.old dicts.new }
{
    let mut all = true;
    for reading in 0..times {
        match add_one(alloc, dicts, reading) {
            Ok(DictReply::Number(_)) => {}
            _ => all = false,
        }
    }
    all
}

/// Dictionaries, and what their calls take memory from.
struct Work<D> {
    alloc: Global,
    dicts: D,
}

fn work_on<D: Dicts>(work: &mut Work<D>) -> bool
    requires { IsOfNumbers (D.specs work.old.dicts) 0 }
    ensures { D.later work.old.dicts work.new.dicts }
{
    add_many(work.alloc, &mut work.dicts, 1000)
}

fn add_side_by_side<D: Dicts + Send, R: Threads + Sync>(
    rt: &R,
    mut one: Work<D>,
    mut two: Work<D>,
) -> (Work<D>, Work<D>, bool)
    requires one { IsOfNumbers (D.specs one.dicts) 0 }
    requires two { IsOfNumbers (D.specs two.dicts) 0 }
    ensures one { D.later one.dicts result.0.dicts }
    ensures two { D.later two.dicts result.1.dicts }
{
    let (first, second) = join_mut(rt, &mut || work_on(&mut one), &mut || work_on(&mut two));
    (one, two, first && second)
}

// How many callers are known.
fn known<R>(pass: &Pass<'_, R>) -> u32
    requires { IsOfNumbers (specs_of pass.now) 0 }
{
    pass.made(0)
}

// What is there at the end, how many callers were known, and whether each call was answered.
fn count_in_two<'z, R: Threads + Wait + Sync>(
    alloc: Global,
    rt: &'z R,
    mut main: Pass<'z, R>,
    one: Pass<'z, R>,
    two: Pass<'z, R>,
) -> (Result<DictReply, NoMemory>, u32, bool)
    requires numeric { IsOfNumbers (specs_of main) 0 }
    requires one { SameZones one main }
    requires two { SameZones two main }
{
    let (one, two, all) = add_side_by_side(
        rt,
        Work { alloc, dicts: one },
        Work { alloc, dicts: two },
    );
    let Work { alloc, dicts: one } = one;
    let Work {
        alloc: _,
        dicts: two,
    } = two;
    one.close(&mut main);
    two.close(&mut main);
    let made = known(&main);
    let reply = get(alloc, &mut main);
    main.end();
    (reply, made, all)
}

// The last pass of a list.
fn last<'z, R>(list: &mut Vec<Pass<'z, R>>) -> Pass<'z, R>
    requires { 0 < vec_len list.old }
    ensures { list.old.items ≡ list.new.items ++ result ∷ [] }
{
    list.pop().unwrap()
}

fn count_by_three<R: Threads + Wait + Sync>(
    alloc: Global,
    rt: &R,
    zones: &mut Zones,
) -> Result<(Result<DictReply, NoMemory>, u32, bool), NoMemory>
    requires { IsOfNumbers zones.old 0 }
{
    let Passes { mut list } = Passes::open(alloc, rt, zones, 3)?;
    let two = last(&mut list);
    let one = last(&mut list);
    let main = last(&mut list);
    list.destroy_empty();
    Ok(count_in_two(alloc, rt, main, one, two))
}

#[test]
fn two_passes_count(rt: HostRuntime) -> Result<(), Fail> {
    let alloc = rt.alloc();
    let mut zones = one_zone(alloc)?;
    let (reply, made, all) = count_by_three(alloc, &rt, &mut zones)?;
    assert!(rt; all);
    assert_eq!(rt; made, 3);
    assert!(rt; matches!(&reply?, DictReply::Value(DictValue::Num(2000))));
    Ok(())
}

// One pass adds, another one that was split from it before learns of it, and asks.
fn learn_and_get<R: Wait>(
    alloc: Global,
    mut main: Pass<'_, R>,
) -> Result<
    (
        Result<DictReply, NoMemory>,
        Result<DictReply, NoMemory>,
        u32,
    ),
    SplitStop,
>
    requires { IsOfNumbers (specs_of main) 0 }
{
    let mut other = match main.split(alloc) {
        Ok(other) => other,
        Err(stop) => {
            main.end();
            return Err(stop);
        }
    };
    let added = add_one(alloc, &mut main, 1);
    other.learn(&mut main);
    let made = known(&other);
    let found = first_get(alloc, &mut other);
    main.end();
    other.end();
    Ok((added, found, made))
}

fn learn_in<R: Wait>(
    alloc: Global,
    rt: &R,
    zones: &mut Zones,
) -> Result<
    (
        Result<DictReply, NoMemory>,
        Result<DictReply, NoMemory>,
        u32,
    ),
    SplitStop,
>
    requires { IsOfNumbers zones.old 0 }
{
    match Passes::open(alloc, rt, zones, 1) {
        Ok(Passes { mut list }) => {
            let main = last(&mut list);
            list.destroy_empty();
            learn_and_get(alloc, main)
        }
        Err(NoMemory) => Err(SplitStop::NoMemory),
    }
}

#[test]
fn a_pass_learns(rt: HostRuntime) -> Result<(), Fail> {
    let alloc = rt.alloc();
    let mut zones = one_zone(alloc)?;
    let (added, found, made) = learn_in(alloc, &rt, &mut zones)?;
    assert!(rt; matches!(&added?, DictReply::Number(1)));
    assert!(rt; matches!(&found?, DictReply::Value(DictValue::Num(1))));
    assert_eq!(rt; made, 2);
    Ok(())
}
