// The operators against every kind of operand, after ECMA-262 5.1 §9 and §11 on whole numbers.
ghost use Rattle.njs_meaning.specs.Primitives.{IsSafeValue};
ghost use Rattle.njs_ops.specs.Values.{operand};

use crate::{OpStop, OpValue, Prim, binary, unary};
use njs_text::{Text, TextFault};
use njs_tree::{BinaryOp, UnaryOp};
use njs_value::MAX_SAFE;
use std::alloc::{AllocError, Global};
use std::process::Abort;
use std::test::Fail;

#[derive(Clone, Copy)]
enum Kind {
    Undefined,
    Null,
    Bool(bool),
    Num(i64),
    Str(&'static str),
}

use Kind::{Bool, Null, Num, Str, Undefined};

fn text(alloc: Global, kind: Kind) -> Result<Text, TextFault> {
    match kind {
        Str(text) => Text::from_utf8(alloc, text.as_bytes()),
        _ => Ok(Text::fixed("")),
    }
}

fn prim<'a>(kind: Kind, text: &'a Text) -> Prim<'a>
    ensures { IsSafeValue (operand result) }
{
    match kind {
        Undefined => Prim::Undefined,
        Null => Prim::Null,
        Bool(truth) => Prim::Bool(truth),
        Num(number) => Prim::Num(number.clamp(-MAX_SAFE, MAX_SAFE)),
        Str(_) => Prim::Str(text),
    }
}

// A value as it is written in a script, or the cause.
fn shown(alloc: Global, answer: &Result<OpValue, OpStop>) -> Result<String, AllocError> {
    match answer {
        Ok(OpValue::Undefined) => String::from_str(alloc, "undefined"),
        Ok(OpValue::Null) => String::from_str(alloc, "null"),
        Ok(OpValue::Bool(truth)) => truth.to_string(alloc),
        Ok(OpValue::Num(number)) => number.to_string(alloc),
        Ok(OpValue::Str(text)) => format!(in alloc; "'{}'", text.as_str()),
        Err(OpStop::Throw(cause)) => format!(in alloc; "{cause:?}"),
        Err(OpStop::NoMemory) => String::from_str(alloc, "no memory"),
    }
}

fn of_two(alloc: Global, op: BinaryOp, left: Kind, right: Kind) -> Result<String, TextFault> {
    let first = text(alloc, left)?;
    let second = text(alloc, right)?;
    let result = binary(alloc, op, prim(left, &first), prim(right, &second));
    Ok(shown(alloc, &result)?)
}

fn of_one(alloc: Global, op: UnaryOp, value: Kind) -> Result<String, TextFault> {
    let text = text(alloc, value)?;
    let result = unary(alloc, op, prim(value, &text));
    Ok(shown(alloc, &result)?)
}

const KINDS: [Kind; 6] = [Undefined, Null, Bool(true), Num(3), Str("3"), Str("x")];

const NAN: &str = "NotNumber";

// What the operator gives with 3 on the right, and with 3 on the left.
const TWO: &[(BinaryOp, [&str; 6], [&str; 6])] = &[
    (
        BinaryOp::Add,
        [NAN, "3", "4", "6", "'33'", "'x3'"],
        [NAN, "3", "4", "6", "'33'", "'3x'"],
    ),
    (
        BinaryOp::Sub,
        [NAN, "-3", "-2", "0", "0", NAN],
        [NAN, "3", "2", "0", "0", NAN],
    ),
    (
        BinaryOp::Mul,
        [NAN, "0", "3", "9", "9", NAN],
        [NAN, "0", "3", "9", "9", NAN],
    ),
    (
        BinaryOp::Div,
        [NAN, "0", "Fraction", "1", "1", NAN],
        [NAN, "DivideByZero", "3", "1", "1", NAN],
    ),
    (
        BinaryOp::Rem,
        [NAN, "0", "1", "0", "0", NAN],
        [NAN, "DivideByZero", "0", "0", "0", NAN],
    ),
    (
        BinaryOp::BitAnd,
        [NAN, "0", "1", "3", "3", NAN],
        [NAN, "0", "1", "3", "3", NAN],
    ),
    (
        BinaryOp::BitOr,
        [NAN, "3", "3", "3", "3", NAN],
        [NAN, "3", "3", "3", "3", NAN],
    ),
    (
        BinaryOp::BitXor,
        [NAN, "3", "2", "0", "0", NAN],
        [NAN, "3", "2", "0", "0", NAN],
    ),
    (
        BinaryOp::Shl,
        [NAN, "0", "8", "24", "24", NAN],
        [NAN, "3", "6", "24", "24", NAN],
    ),
    (
        BinaryOp::Shr,
        [NAN, "0", "0", "0", "0", NAN],
        [NAN, "3", "1", "0", "0", NAN],
    ),
    (
        BinaryOp::UShr,
        [NAN, "0", "0", "0", "0", NAN],
        [NAN, "3", "1", "0", "0", NAN],
    ),
    (
        BinaryOp::Eq,
        ["false", "false", "false", "true", "true", "false"],
        ["false", "false", "false", "true", "true", "false"],
    ),
    (
        BinaryOp::Ne,
        ["true", "true", "true", "false", "false", "true"],
        ["true", "true", "true", "false", "false", "true"],
    ),
    (
        BinaryOp::StrictEq,
        ["false", "false", "false", "true", "false", "false"],
        ["false", "false", "false", "true", "false", "false"],
    ),
    (
        BinaryOp::StrictNe,
        ["true", "true", "true", "false", "true", "true"],
        ["true", "true", "true", "false", "true", "true"],
    ),
    (
        BinaryOp::Lt,
        ["false", "true", "true", "false", "false", "false"],
        ["false", "false", "false", "false", "false", "false"],
    ),
    (
        BinaryOp::Gt,
        ["false", "false", "false", "false", "false", "false"],
        ["false", "true", "true", "false", "false", "false"],
    ),
    (
        BinaryOp::Le,
        ["false", "true", "true", "true", "true", "false"],
        ["false", "false", "false", "true", "true", "false"],
    ),
    (
        BinaryOp::Ge,
        ["false", "false", "false", "true", "true", "false"],
        ["false", "true", "true", "true", "true", "false"],
    ),
    (
        BinaryOp::InstanceOf,
        [
            "NotFunction",
            "NotFunction",
            "NotFunction",
            "NotFunction",
            "NotFunction",
            "NotFunction",
        ],
        [
            "NotFunction",
            "NotFunction",
            "NotFunction",
            "NotFunction",
            "NotFunction",
            "NotFunction",
        ],
    ),
    (
        BinaryOp::In,
        [
            "NotObject",
            "NotObject",
            "NotObject",
            "NotObject",
            "NotObject",
            "NotObject",
        ],
        [
            "NotObject",
            "NotObject",
            "NotObject",
            "NotObject",
            "NotObject",
            "NotObject",
        ],
    ),
];

const ONE: &[(UnaryOp, [&str; 6])] = &[
    (
        UnaryOp::Delete,
        ["true", "true", "true", "true", "true", "true"],
    ),
    (
        UnaryOp::Void,
        [
            "undefined",
            "undefined",
            "undefined",
            "undefined",
            "undefined",
            "undefined",
        ],
    ),
    (
        UnaryOp::TypeOf,
        [
            "'undefined'",
            "'object'",
            "'boolean'",
            "'number'",
            "'string'",
            "'string'",
        ],
    ),
    (UnaryOp::Plus, [NAN, "0", "1", "3", "3", NAN]),
    (UnaryOp::Minus, [NAN, "0", "-1", "-3", "-3", NAN]),
    (UnaryOp::BitNot, [NAN, "-1", "-2", "-4", "-4", NAN]),
    (
        UnaryOp::Not,
        ["true", "true", "false", "false", "false", "false"],
    ),
];

const MAX: Kind = Num(9_007_199_254_740_991);

const SINGLE: &[(Kind, BinaryOp, Kind, &str)] = &[
    (Num(6), BinaryOp::Div, Num(2), "3"),
    (Num(7), BinaryOp::Div, Num(2), "Fraction"),
    (Num(-7), BinaryOp::Rem, Num(2), "-1"),
    (Num(7), BinaryOp::Rem, Num(-2), "1"),
    (Num(-4), BinaryOp::Rem, Num(2), "0"),
    (Num(-1), BinaryOp::UShr, Num(0), "4294967295"),
    (Num(1), BinaryOp::Shl, Num(31), "-2147483648"),
    (Num(1), BinaryOp::Shl, Num(33), "2"),
    (Num(-9), BinaryOp::Shr, Num(1), "-5"),
    (Num(-1), BinaryOp::UShr, Num(31), "1"),
    (Num(4_294_967_297), BinaryOp::BitOr, Num(0), "1"),
    (Num(2_147_483_648), BinaryOp::BitOr, Num(0), "-2147483648"),
    (Num(-1), BinaryOp::BitAnd, Num(255), "255"),
    (MAX, BinaryOp::Add, Num(1), "OutOfRange"),
    (
        Num(9_007_199_254_740_990),
        BinaryOp::Add,
        Num(1),
        "9007199254740991",
    ),
    (MAX, BinaryOp::Mul, MAX, "OutOfRange"),
    (Num(-1), BinaryOp::Mul, Num(0), "0"),
    (Undefined, BinaryOp::Eq, Null, "true"),
    (Undefined, BinaryOp::StrictEq, Null, "false"),
    (Null, BinaryOp::Eq, Num(0), "false"),
    (Bool(true), BinaryOp::Eq, Str("1"), "true"),
    (Str(""), BinaryOp::Eq, Num(0), "true"),
    (Str("a"), BinaryOp::Lt, Str("b"), "true"),
    (Str("10"), BinaryOp::Lt, Str("9"), "true"),
    (Str("10"), BinaryOp::Lt, Num(9), "false"),
    (Str("\u{ffff}"), BinaryOp::Lt, Str("\u{10000}"), "true"),
    (Str(" \t3\r\n"), BinaryOp::Mul, Num(1), "3"),
    (
        Str("\u{feff}\u{a0}0x1F\u{2028}"),
        BinaryOp::Mul,
        Num(1),
        "31",
    ),
    (Str("+05"), BinaryOp::Mul, Num(1), "5"),
    (Str("-12"), BinaryOp::Mul, Num(1), "-12"),
    (Str("-0x1"), BinaryOp::Mul, Num(1), NAN),
    (Str("0x"), BinaryOp::Mul, Num(1), NAN),
    (Str("-"), BinaryOp::Mul, Num(1), NAN),
    (Str("1 2"), BinaryOp::Mul, Num(1), NAN),
    (Str("1.5"), BinaryOp::Mul, Num(1), NAN),
    (Str("9007199254740992"), BinaryOp::Mul, Num(1), NAN),
    (
        Str("-9007199254740991"),
        BinaryOp::Mul,
        Num(1),
        "-9007199254740991",
    ),
    (Num(-12), BinaryOp::Add, Str(""), "'-12'"),
    (Null, BinaryOp::Add, Str("a"), "'nulla'"),
    (Str("a"), BinaryOp::Add, Undefined, "'aundefined'"),
    (Bool(false), BinaryOp::Add, Str("é"), "'falseé'"),
];

fn check_kinds(
    rt: &impl Abort,
    alloc: Global,
    op: BinaryOp,
    left: &[&str; 6],
    right: &[&str; 6],
) -> Result<(), Fail> {
    for place in 0..6 {
        let kind = KINDS[place];
        assert_eq!(rt; of_two(alloc, op, kind, Num(3))?.as_str(), left[place]);
        assert_eq!(rt; of_two(alloc, op, Num(3), kind)?.as_str(), right[place]);
    }
    Ok(())
}

#[test]
fn operators_of_two_values(rt: HostRuntime) -> Result<(), Fail> {
    for (op, left, right) in TWO {
        check_kinds(&rt, rt.alloc(), *op, left, right)?;
    }
    for (left, op, right, expected) in SINGLE {
        assert_eq!(rt; of_two(rt.alloc(), *op, *left, *right)?.as_str(), *expected);
    }
    Ok(())
}

#[test]
fn operators_of_one_value(rt: HostRuntime) -> Result<(), Fail> {
    for (op, expected) in ONE {
        for place in 0..6 {
            assert_eq!(rt;
                of_one(rt.alloc(), *op, KINDS[place])?.as_str(),
                expected[place]
            );
        }
    }
    Ok(())
}

#[test]
fn texts_have_a_longest_length(rt: HostRuntime) -> Result<(), Fail> {
    let alloc = rt.alloc();
    let bytes = vec![in alloc; b'a'; 1_048_576]?;
    let long = Text::from_utf8(alloc, bytes.as_slice())?;
    let short = Text::from_utf8(alloc, b"a")?;
    let whole = binary(
        alloc,
        BinaryOp::Add,
        Prim::Str(&long),
        Prim::Str(&Text::fixed("")),
    );
    assert!(rt; matches!(&whole, Ok(OpValue::Str(text)) if text.len() == 1_048_576));
    let over = binary(alloc, BinaryOp::Add, Prim::Str(&short), Prim::Str(&long));
    assert_eq!(rt; shown(alloc, &over)?.as_str(), "TextTooLong");
    Ok(())
}
