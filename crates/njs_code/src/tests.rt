// Code that may run, and code that breaks one part of the rule each.
use crate::{Address, Code, Depth, FunctionCode, Kind, Op, valid_code_keeps_its_rule, validate};
use njs_text::{List, NoMemory, Text};
use std::alloc::Global;
use std::process::Abort;
use std::test::Fail;

// An operation where so many operands, scopes, lists and endings stand.
fn deep(kind: Kind, operands: u32, scopes: u32, lists: u32, endings: u32) -> Op {
    let depth = Depth {
        operands,
        scopes,
        lists,
        endings,
    };
    Op {
        kind,
        depth,
        around: None,
    }
}

// An operation in the call's own scope, where so many operands stand.
fn at(kind: Kind, operands: u32) -> Op {
    deep(kind, operands, 1, 0, 0)
}

// The same in the part of the code that the operation at an address ends.
fn within(op: Op, end: u32) -> Op {
    let Op { kind, depth, .. } = op;
    Op {
        kind,
        depth,
        around: Some(Address(end)),
    }
}

fn closure(number: u32, name: Option<Text>) -> Kind {
    Kind::Closure {
        number,
        params: 1,
        name,
    }
}

fn load(up: u32, slot: u32) -> Kind {
    Kind::Load { up, slot }
}

fn store(up: u32, slot: u32) -> Kind {
    Kind::Store { up, slot }
}

fn end_body(alloc: Global, past: u32) -> Kind {
    Kind::EndBody {
        labels: List::new(alloc),
        past: Address(past),
    }
}

// A loop whose body ends at 13 and which goes on at 11, and a block that ends with a `finally` at 5.
fn body_ops(alloc: Global) -> Result<List<Op>, NoMemory> {
    let front = [
        at(Kind::Undefined, 0),
        at(Kind::Drop, 1),
        at(Kind::Charge, 0),
        at(Kind::Bool(true), 0),
        at(Kind::JumpFalse(Address(11)), 1),
        within(at(Kind::Num(9_007_199_254_740_991), 0), 13),
        within(at(Kind::StoreGlobal(2), 1), 13),
        within(at(Kind::Enter(Text::fixed("a")), 1), 13),
        within(deep(load(0, 0), 0, 2, 0, 0), 13),
        within(deep(store(1, 1), 1, 2, 0, 0), 13),
        within(deep(Kind::Leave, 1, 2, 0, 0), 13),
        at(Kind::Drop, 1),
        at(closure(0, None), 0),
        at(Kind::Drop, 1),
        at(closure(1, Some(Text::fixed("f"))), 0),
    ];
    let back = [
        at(Kind::Drop, 1),
        within(at(Kind::Break(None), 0), 13),
        at(end_body(alloc, 11), 0),
        at(Kind::Jump(Address(28)), 0),
        at(Kind::Charge, 0),
        at(Kind::NewObject, 0),
        at(Kind::ListNames, 1),
        within(deep(Kind::MoreNames(Address(3)), 0, 1, 1, 0), 5),
        within(deep(Kind::NextName, 0, 1, 1, 0), 5),
        within(deep(Kind::Drop, 1, 1, 1, 0), 5),
        deep(Kind::Finally, 0, 1, 1, 0),
        deep(Kind::Resume, 0, 1, 1, 1),
        deep(Kind::DropList, 0, 1, 1, 0),
        at(Kind::Undefined, 0),
        at(Kind::Return, 1),
    ];
    let mut ops = List::from_vec(Vec::from_array(alloc, front)?);
    for op in back {
        ops.push(op)?;
    }
    Ok(ops)
}

fn short_ops(alloc: Global) -> Result<List<Op>, NoMemory> {
    let ops = [at(Kind::This, 0), at(Kind::Return, 1)];
    Ok(List::from_vec(Vec::from_array(alloc, ops)?))
}

fn function(
    alloc: Global,
    params: u32,
    slots: &[u32],
    ops: List<Op>,
) -> Result<FunctionCode, NoMemory> {
    let mut list = List::new(alloc);
    for count in slots {
        list.push(*count)?;
    }
    Ok(FunctionCode {
        params,
        builds: true,
        slots: list,
        ops,
    })
}

fn functions(alloc: Global) -> Result<List<FunctionCode>, NoMemory> {
    let mut functions = List::new(alloc);
    functions.push(function(alloc, 1, &[1, 2, 3], short_ops(alloc)?)?)?;
    functions.push(function(alloc, 1, &[2, 1, 2, 3], short_ops(alloc)?)?)?;
    Ok(functions)
}

fn is_accepted(code: Code) -> bool {
    match validate(code) {
        None => false,
        Some(valid) => !valid.code().body.ops.is_empty(),
    }
}

// Whether the body is accepted with another operation in a place.
fn accepts(rt: &impl Abort, alloc: Global, place: usize, op: Op) -> Result<bool, NoMemory> {
    let mut ops = body_ops(alloc)?;
    assert!(rt; place < ops.len());
    ops.set(place, op);
    let body = function(alloc, 0, &[2, 3], ops)?;
    Ok(is_accepted(Code {
        functions: functions(alloc)?,
        body,
    }))
}

#[test]
fn accepts_operations(rt: HostRuntime) -> Result<(), Fail> {
    let alloc = rt.alloc();
    let changes = [
        (0, at(Kind::Undefined, 0)),
        (5, within(at(Kind::Num(-9_007_199_254_740_991), 0), 13)),
        (6, within(at(store(1, 2), 1), 13)),
        (8, within(deep(Kind::LoadGlobal(0), 0, 2, 0, 0), 13)),
        (16, at(Kind::Break(None), 0)),
        (18, at(Kind::Jump(Address(11)), 0)),
        (28, at(Kind::NewArray, 0)),
    ];
    for (place, op) in changes {
        assert!(rt; accepts(&rt, alloc, place, op)?, "at {place}");
    }
    valid_code_keeps_its_rule();
    Ok(())
}

#[test]
fn refuses_addresses(rt: HostRuntime) -> Result<(), Fail> {
    let alloc = rt.alloc();
    let changes = [
        // An address without an operation.
        (18, at(Kind::Jump(Address(31)), 0)),
        (18, at(Kind::Jump(Address(0)), 0)),
        // A loop that goes on before its end.
        (17, at(end_body(alloc, 28), 0)),
        // A jump back that takes no tick.
        (18, at(Kind::Jump(Address(27)), 0)),
        // An ending that leads to itself, to no end of a part, back, or to a place with more lists.
        (16, within(at(Kind::Break(None), 0), 14)),
        (16, within(at(Kind::Break(None), 0), 11)),
        (26, within(deep(Kind::Resume, 0, 1, 1, 1), 5)),
        (20, within(at(Kind::NewObject, 0), 5)),
    ];
    for (place, op) in changes {
        assert!(rt; !accepts(&rt, alloc, place, op)?, "at {place}");
    }
    Ok(())
}

// Whether a body is accepted where so many scopes stand at an operation that none leads to.
fn accepts_scopes(alloc: Global, scopes: u32) -> Result<bool, NoMemory> {
    let mut ops = short_ops(alloc)?;
    ops.push(deep(Kind::Continue(None), 0, scopes, 0, 0))?;
    let body = function(alloc, 0, &[2, 3], ops)?;
    let functions = List::new(alloc);
    Ok(is_accepted(Code { functions, body }))
}

#[test]
fn refuses_depths(rt: HostRuntime) -> Result<(), Fail> {
    let alloc = rt.alloc();
    let changes = [
        // Too few operands, lists and endings.
        (28, at(Kind::Nip, 0)),
        (19, at(Kind::DropList, 0)),
        (28, at(Kind::NextName, 0)),
        (19, at(Kind::Resume, 0)),
        // Another depth at the next operation, or none.
        (28, at(Kind::Charge, 0)),
        (29, at(Kind::Drop, 1)),
        // Another depth at the operation that a jump or a `break` leads to.
        (18, at(Kind::Jump(Address(1)), 0)),
        (17, at(end_body(alloc, 1), 0)),
        // A first operation that takes an operand.
        (0, at(Kind::ToNumber, 1)),
    ];
    for (place, op) in changes {
        assert!(rt; !accepts(&rt, alloc, place, op)?, "at {place}");
    }
    assert!(rt; !accepts_scopes(alloc, 0)?);
    assert!(rt; accepts_scopes(alloc, 1)?, "at one scope");
    Ok(())
}

#[test]
fn refuses_names(rt: HostRuntime) -> Result<(), Fail> {
    let alloc = rt.alloc();
    let changes = [
        // A slot beyond those of a scope.
        (8, within(deep(load(0, 1), 0, 2, 0, 0), 13)),
        (9, within(deep(store(1, 2), 1, 2, 0, 0), 13)),
        (8, within(deep(load(3, 0), 0, 2, 0, 0), 13)),
        (6, within(at(Kind::StoreGlobal(3), 1), 13)),
        // A function that isn't there, or stands in other scopes.
        (12, at(closure(2, None), 0)),
        (12, at(closure(1, None), 0)),
        (14, at(closure(0, Some(Text::fixed("f"))), 0)),
        // A number beyond those that are told apart.
        (5, within(at(Kind::Num(9_007_199_254_740_992), 0), 13)),
        (5, within(at(Kind::Num(-9_007_199_254_740_992), 0), 13)),
    ];
    for (place, op) in changes {
        assert!(rt; !accepts(&rt, alloc, place, op)?, "at {place}");
    }
    Ok(())
}

#[test]
fn tells_functions(rt: HostRuntime) -> Result<(), Fail> {
    let alloc = rt.alloc();
    let bodies: [(&[u32], u32, bool); 5] = [
        (&[2, 3], 2, true),
        (&[2, 3], 3, false),
        (&[2, 3, 3], 0, false),
        (&[3], 0, false),
        (&[], 0, false),
    ];
    for (slots, params, want) in bodies {
        let body = function(alloc, params, slots, short_ops(alloc)?)?;
        let functions = List::new(alloc);
        assert_eq!(rt; is_accepted(Code { functions, body }), want, "at {params}");
    }
    let listed: [(&[u32], u32, bool); 4] = [
        (&[2, 1, 2, 3], 2, true),
        (&[0, 3], 0, true),
        (&[0, 3], 1, false),
        (&[3], 0, false),
    ];
    for (slots, params, want) in listed {
        let mut functions = List::new(alloc);
        functions.push(function(alloc, params, slots, short_ops(alloc)?)?)?;
        let body = function(alloc, 0, &[2, 3], short_ops(alloc)?)?;
        assert_eq!(rt; is_accepted(Code { functions, body }), want, "at {params}");
    }
    let mut functions = List::new(alloc);
    functions.push(function(alloc, 0, &[0, 3], List::new(alloc))?)?;
    let body = function(alloc, 0, &[2, 3], short_ops(alloc)?)?;
    assert!(rt; !is_accepted(Code { functions, body }));
    Ok(())
}
