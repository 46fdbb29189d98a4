// Calls of several callers. The numbers follow from one history: each call of `Incr` adds 1.
ghost use Rattle.std.specs.Prelude.{◌≡◌, true, IfOk};
ghost use Rattle.dict_model.specs.Operation.{IsSpec};
ghost use Rattle.dict_lock.specs.Known.{first_caller};

use super::*;
use dict_model::{DictOp, DictReply, DictValue, PlainZone, ZoneSpec};
use njs_text::{NoMemory, Text};
use std::alloc::Global;
use std::sync::Wait;
use std::test::*;
use std::thread::{Threads, join_mut};

fn text(alloc: Global, word: &str) -> Result<Text, NoMemory> {
    match Text::from_utf8(alloc, word.as_bytes()) {
        Ok(text) => Ok(text),
        Err(_) => Err(NoMemory),
    }
}

fn numbers(alloc: Global) -> Result<ZoneSpec, NoMemory>
    ensures spec { IfOk result (λ spec. IsSpec spec) }
    ensures numeric { IfOk result (λ spec. spec.numeric ≡ true) }
{
    Ok(ZoneSpec {
        name: text(alloc, "z")?,
        limit: 1024,
        timeout: None,
        numeric: true,
        evict: false,
    })
}

fn add_one<R: Wait>(
    alloc: Global,
    rt: &R,
    zone: &Zone<PlainZone>,
    seat: &mut ZoneSeat<PlainZone>,
    reading: u32,
) -> Result<DictReply, NoMemory>
    requires zone { seat.old.zone ≡ zone.now }
    requires numeric { zone.now.spec.numeric ≡ true }
    ensures { seat.new.zone ≡ zone.now }
{
    let key = text(alloc, "n")?;
    zone.call(alloc, rt, seat, DictOp::Incr(key, 1, 0), u64::from(reading))
}

fn get<R: Wait>(
    alloc: Global,
    rt: &R,
    zone: &Zone<PlainZone>,
    seat: &mut ZoneSeat<PlainZone>,
) -> Result<DictReply, NoMemory>
    requires { seat.old.zone ≡ zone.now }
    ensures { seat.new.zone ≡ zone.now }
{
    let key = text(alloc, "n")?;
    zone.call(alloc, rt, seat, DictOp::Get(key), 5)
}

// Adds so many times, and says whether each call answered a number.
fn add_many<R: Wait>(
    alloc: Global,
    rt: &R,
    zone: &Zone<PlainZone>,
    seat: &mut ZoneSeat<PlainZone>,
    times: u32,
) -> bool
    requires zone { seat.old.zone ≡ zone.now }
    requires numeric { zone.now.spec.numeric ≡ true }
    ensures { seat.new.zone ≡ zone.now }
{
    let mut all = true;
    for reading in 0..times {
        match add_one(alloc, rt, zone, seat, reading) {
            Ok(DictReply::Number(_)) => {}
            _ => all = false,
        }
    }
    all
}

// What is there at the end, and how many callers were known.
fn count_in_two<R: Threads + Wait + Sync>(
    alloc: Global,
    rt: &R,
    zone: &Zone<PlainZone>,
    mut main: ZoneSeat<PlainZone>,
) -> Result<(Result<DictReply, NoMemory>, u32), SplitStop>
    requires zone { main.zone ≡ zone.now }
    requires numeric { zone.now.spec.numeric ≡ true }
{
    let mut one = match zone.split(rt, &mut main) {
        Ok(one) => one,
        Err(stop) => {
            zone.end(main);
            return Err(stop);
        }
    };
    let mut two = match zone.split(rt, &mut main) {
        Ok(two) => two,
        Err(stop) => {
            zone.end(main);
            zone.end(one);
            return Err(stop);
        }
    };
    let (first, second) = join_mut(
        rt,
        &mut || add_many(alloc, rt, zone, &mut one, 1000),
        &mut || add_many(alloc, rt, zone, &mut two, 1000),
    );
    zone.close(one, &mut main);
    zone.close(two, &mut main);
    let made = zone.made(&main);
    let reply = get(alloc, rt, zone, &mut main);
    zone.end(main);
    if first && second {
        Ok((reply, made))
    } else {
        Err(SplitStop::NoMemory)
    }
}

#[test]
fn two_threads_count(rt: HostRuntime) -> Result<(), Fail> {
    let alloc = rt.alloc();
    let (zone, main) = Zone::new(alloc, PlainZone::new(alloc, numbers(alloc)?)?, 1)?;
    let (reply, made) = count_in_two(alloc, &rt, &zone, main)?;
    assert_eq!(rt; made, 3);
    assert!(rt; matches!(&reply?, DictReply::Value(DictValue::Num(2000))));
    Ok(())
}

// One caller adds, another one that was dealt learns of it, and asks.
fn learn_and_get<R: Wait>(
    alloc: Global,
    rt: &R,
    zone: &Zone<PlainZone>,
    mut main: ZoneSeat<PlainZone>,
) -> (
    Result<DictReply, NoMemory>,
    Result<DictReply, NoMemory>,
    u32,
)
    requires zone { main.zone ≡ zone.now }
    requires spare { main ≡ first_caller zone.now 2 }
    requires numeric { zone.now.spec.numeric ≡ true }
{
    let mut other = zone.deal(&mut main);
    let added = add_one(alloc, rt, zone, &mut main, 1);
    zone.learn(&mut other, &mut main);
    let found = get(alloc, rt, zone, &mut other);
    let made = zone.made(&other);
    zone.close(main, &mut other);
    other.is_caller();
    zone.end(other);
    (added, found, made)
}

#[test]
fn a_caller_learns(rt: HostRuntime) -> Result<(), Fail> {
    let alloc = rt.alloc();
    let (zone, main) = Zone::new(alloc, PlainZone::new(alloc, numbers(alloc)?)?, 2)?;
    let (added, found, made) = learn_and_get(alloc, &rt, &zone, main);
    assert!(rt; matches!(&added?, DictReply::Number(1)));
    assert!(rt; matches!(&found?, DictReply::Value(DictValue::Num(1))));
    assert_eq!(rt; made, 2);
    Ok(())
}
