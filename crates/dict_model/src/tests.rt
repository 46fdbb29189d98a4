// The calls of a zone and of dictionaries, with replies that the njs reference and the rules of a zone give.
ghost use Rattle.std.specs.Prelude.{IfOk};
ghost use Rattle.dict_model.specs.Operation.{IsSpec};

use crate::{DictOp, DictReply, DictValue, Dicts, PlainDicts, PlainZone, ZoneSpec, ZoneState};
use njs_text::{NoMemory, Text};
use std::alloc::Global;
use std::test::Fail;

const MAX_READING: u64 = 1 << 53;

fn text(alloc: Global, word: &str) -> Result<Text, NoMemory> {
    match Text::from_utf8(alloc, word.as_bytes()) {
        Ok(text) => Ok(text),
        Err(_) => Err(NoMemory),
    }
}

// A key and a value.
fn pair(alloc: Global, key: &str, value: &str) -> Result<(Text, DictValue), NoMemory> {
    let value = DictValue::Str(text(alloc, value)?);
    Ok((text(alloc, key)?, value))
}

fn storing_op(alloc: Global, name: &str, key: &str, value: &str) -> Result<DictOp, NoMemory> {
    let (key, value) = pair(alloc, key, value)?;
    if name == "add" {
        Ok(DictOp::Add(key, value))
    } else if name == "set" {
        Ok(DictOp::Set(key, value))
    } else {
        Ok(DictOp::Replace(key, value))
    }
}

fn key_op(alloc: Global, name: &str, key: &str) -> Result<DictOp, NoMemory> {
    let key = text(alloc, key)?;
    if name == "get" {
        Ok(DictOp::Get(key))
    } else if name == "has" {
        Ok(DictOp::Has(key))
    } else if name == "delete" {
        Ok(DictOp::Delete(key))
    } else {
        Ok(DictOp::Pop(key))
    }
}

// The operation of this name.
fn op_of(alloc: Global, name: &str, key: &str, value: &str) -> Result<DictOp, NoMemory> {
    if name == "clear" {
        Ok(DictOp::Clear)
    } else if name == "keys" {
        Ok(DictOp::Keys(1024))
    } else if name == "no keys" {
        Ok(DictOp::Keys(0))
    } else if name == "size" {
        Ok(DictOp::Size)
    } else if name == "free space" {
        Ok(DictOp::FreeSpace)
    } else if name == "add" || name == "set" || name == "replace" {
        storing_op(alloc, name, key, value)
    } else {
        key_op(alloc, name, key)
    }
}

fn shown(alloc: Global, reply: &DictReply) -> Result<String, NoMemory> {
    Ok(format!(in alloc; "{reply:?}")?)
}

// The reply as Debug writes it.
fn ask(alloc: Global, zone: &mut PlainZone, op: DictOp, reading: u64) -> Result<String, NoMemory> {
    if !zone.spec().allows(&op) || reading >= MAX_READING {
        drop(op);
        return Ok(format!(in alloc; "not allowed")?);
    }
    let reply = zone.apply(alloc, op, reading)?;
    let shown = shown(alloc, &reply);
    drop(reply);
    shown
}

fn spec(alloc: Global, limit: u32, timeout: Option<u32>, evict: bool) -> Result<ZoneSpec, NoMemory>
    ensures { IfOk result (λ spec. IsSpec spec) }
{
    let timeout = match timeout {
        Some(time) => Some(u64::from(time)),
        None => None,
    };
    Ok(ZoneSpec {
        name: text(alloc, "z")?,
        limit: u64::from(limit),
        timeout,
        numeric: false,
        evict: evict && timeout.is_some(),
    })
}

#[test]
fn entries_expire(rt: HostRuntime) -> Result<(), Fail> {
    let alloc = rt.alloc();
    let mut zone = PlainZone::new(alloc, spec(alloc, 1024, Some(1000), false)?)?;
    let calls = [
        ("set", "k", "v", 5000, "Yes"),
        ("get", "k", "", 5999, "Value(Str(\"v\"))"),
        ("get", "k", "", 6000, "Nothing"),
        ("set", "k", "w", 6000, "Yes"),
        ("get", "k", "", 100, "Value(Str(\"w\"))"),
        ("get", "k", "", 7000, "Nothing"),
        ("get", "k", "", 100, "Nothing"),
    ];
    for (name, key, value, reading, want) in calls {
        let op = op_of(alloc, name, key, value)?;
        assert_eq!(rt; ask(alloc, &mut zone, op, reading)?.as_str(), want);
    }
    Ok(())
}

#[test]
fn each_operation_on_a_key(rt: HostRuntime) -> Result<(), Fail> {
    let alloc = rt.alloc();
    let mut zone = PlainZone::new(alloc, spec(alloc, 1024, Some(1000), false)?)?;
    let calls = [
        ("get", "a", "", 1, "Nothing"),
        ("has", "a", "", 1, "No"),
        ("delete", "a", "", 1, "No"),
        ("pop", "a", "", 1, "Nothing"),
        ("replace", "a", "x", 1, "No"),
        ("size", "", "", 1, "Number(0)"),
        ("add", "a", "x", 1, "Yes"),
        ("add", "a", "y", 2, "No"),
        ("set", "b", "", 2, "Yes"),
        ("replace", "a", "xyz", 2, "Yes"),
        ("keys", "", "", 2, "Names(List { items: [\"a\", \"b\"] })"),
        ("no keys", "", "", 2, "Names(List { items: [] })"),
        ("free space", "", "", 2, "Number(891)"),
        ("has", "a", "", 1001, "Yes"),
        ("pop", "a", "", 1001, "Value(Str(\"xyz\"))"),
        ("size", "", "", 1001, "Number(1)"),
        ("delete", "b", "", 1001, "Yes"),
        ("set", "c", "", 1001, "Yes"),
        ("clear", "", "", 1001, "Yes"),
        ("free space", "", "", 1001, "Number(1024)"),
    ];
    for (name, key, value, reading, want) in calls {
        let op = op_of(alloc, name, key, value)?;
        assert_eq!(rt; ask(alloc, &mut zone, op, reading)?.as_str(), want);
    }
    Ok(())
}

// 191 bytes of a value and one of a key cost 256.
#[test]
fn the_first_to_expire_goes(rt: HostRuntime) -> Result<(), Fail> {
    let alloc = rt.alloc();
    let bytes = vec![in alloc; b'v'; 960]?;
    let long = str::from_utf8(&bytes).expect(&rt, "a text");
    let value = str::from_utf8(&bytes[..191]).expect(&rt, "a text");
    for (evict, last, names) in [
        (
            true,
            "Yes",
            "Names(List { items: [\"b\", \"c\", \"d\", \"e\"] })",
        ),
        (
            false,
            "Full",
            "Names(List { items: [\"a\", \"b\", \"c\", \"d\"] })",
        ),
    ] {
        let mut zone = PlainZone::new(alloc, spec(alloc, 1024, Some(1000), evict)?)?;
        let calls = [
            ("set", "a", value, 10, "Yes"),
            ("set", "b", value, 20, "Yes"),
            ("set", "c", value, 30, "Yes"),
            ("set", "d", value, 40, "Yes"),
            ("set", "e", value, 50, last),
            ("set", "z", long, 50, "Full"),
            ("keys", "", "", 60, names),
            ("free space", "", "", 60, "Number(0)"),
        ];
        for (name, key, value, reading, want) in calls {
            let op = op_of(alloc, name, key, value)?;
            assert_eq!(rt; ask(alloc, &mut zone, op, reading)?.as_str(), want);
        }
    }
    Ok(())
}

#[test]
fn numbers_have_ends(rt: HostRuntime) -> Result<(), Fail> {
    let alloc = rt.alloc();
    let mut numbers = spec(alloc, 73, None, false)?;
    numbers.numeric = true;
    let mut zone = PlainZone::new(alloc, numbers)?;
    let calls = [
        ("n", 1, 9_007_199_254_740_990, "Number(9007199254740991)"),
        ("n", 1, 0, "Outside"),
        ("m", -1, -9_007_199_254_740_991, "Outside"),
        ("m", 1, 1, "Full"),
        ("n", -9_007_199_254_740_991, 0, "Number(0)"),
        ("n", -9_007_199_254_740_991, 0, "Number(-9007199254740991)"),
        ("n", -1, 0, "Outside"),
        ("n", 9_007_199_254_740_992, 0, "not allowed"),
    ];
    for (key, step, initial, want) in calls {
        let op = DictOp::Incr(text(alloc, key)?, step, initial);
        assert_eq!(rt; ask(alloc, &mut zone, op, 1)?.as_str(), want);
    }
    Ok(())
}

#[test]
fn calls_are_recorded(rt: HostRuntime) -> Result<(), Fail> {
    let alloc = rt.alloc();
    let specs = [
        spec(alloc, 1024, None, false)?,
        spec(alloc, 64, None, false)?,
    ];
    let mut dicts = PlainDicts::new(alloc, &specs)?;
    assert!(rt; dicts.call(alloc, 1, DictOp::Size, 7).is_ok());
    assert!(rt; dicts.call(alloc, 1, DictOp::Clear, 5).is_ok());
    assert_eq!(rt; dicts.history(0).len(), 0);
    let calls = dicts.history(1);
    assert_eq!(rt; calls.len(), 2);
    let last = &calls[1];
    assert_eq!(rt; (last.caller, last.reading), (0, 5));
    let shown = format!(in alloc; "{:?} {:?}", last.op, last.reply)?;
    assert_eq!(rt; shown.as_str(), "Clear Yes");
    Ok(())
}
