// Scripts that are accepted, and scripts that are refused with their causes, by ECMA-262 5.1 in strict mode within the language that is
// read: whole numbers, no regular expressions, no accessors, no `with`, no `debugger`, labels before loops alone, the shorthand `{name}`,
// and `export default value;` among the items.
use njs_conn::{ScriptStop, ScriptWhy, script_from};
use njs_text::NoMemory;
use njs_tree::EarlyKind;
use std::alloc::Global;
use std::test::Fail;

const ACCEPTED: &[&str] = &[
    // scripts (§14), white space, line ends and comments (§7.2, §7.3, §7.4)
    "",
    "\n\r\n\u{2028}\u{2029}",
    "\u{feff}\t\u{b}\u{c} \u{a0}a;",
    "// a comment to the end",
    "/* one\n two */ a /**/ ; /***/",
    "a // the line end behind it ends the statement\nb",
    "a /* a line end\n inside */ b",
    // names and numbers (§7.6, §7.8.3)
    "$; _; aZ$_09; undefined; async; of; get; set;",
    "0; 1; 1234567890; 9007199254740991;",
    "0x0; 0Xff; 0xDEADbeef; 0x1fffffffffffff;",
    "this; null; true; false;",
    // strings (§7.8.4)
    "\"\"; ''; \"it's\"; 'say \"hi\"';",
    "'\\b\\t\\n\\v\\f\\r\\\"\\'\\\\';",
    "'\\0'; '\\0a'; '\\x41\\x7f'; '\\u0041\\uffff';",
    "'\\ud83d\\ude00';",
    "'a\\\nb\\\r\nc\\\rd\\\u{2028}e\\\u{2029}f';",
    "'\\a\\q\\$\\z\\/\\é';",
    "'é\u{a0}😀';",
    // primary expressions (§11.1)
    "[]; [1]; [1, 2]; [1, 2,];",
    "[,]; [,,]; [1,,2]; [,1]; [1,,]; [[], [[]]];",
    "({}); ({a: 1}); ({a: 1, b: 2}); ({a: 1,});",
    "({'a b': 1, 7: 2, 0x10: 3, if: 4, get: 5, set: 6});",
    "({a}); ({a, b: 1, c,}); ({a: 1, a: 2});",
    "(a); ((a)); (a, b); (a, b).c;",
    // chains (§11.2)
    "a.b; a.b.c; a.if; a.new.delete; a[b]; a[b, c]; a['d'];",
    "a(); a(b); a(b, c); a()(); a()[b].c(d);",
    "new a; new a(); new a(b, c); new a.b; new a.b(); new a[b](c);",
    "new new a; new new a(); new new a()(); new a().b; new a()();",
    "new (a()); new (a().b)(c); new function () {}; new this.a;",
    // postfix and prefix (§11.3, §11.4)
    "a++; a--; a.b++; a[b]--; (a)++; ((a.b))--;",
    "++a; --a; ++a.b; --a[b]; ++(a);",
    "delete a.b; delete a[b]; delete a(); void a; typeof a; typeof typeof a;",
    "+a; -a; ~a; !a; - -a; + +a; -a++; !!a; - --a; typeof -a;",
    // operators of two values (§11.5 to §11.11)
    "a * b / c % d; a + b - c; a << b >> c >>> d;",
    "a < b; a > b; a <= b; a >= b; a instanceof b; a in b;",
    "a == b; a != b; a === b; a !== b;",
    "a & b ^ c | d; a && b || c; a || b && c;",
    "a + +b; a - -b; a+ ++b; a---b; a+++b;",
    "a / b / c; a/b; a /= b; a\n/b/c;",
    // conditions, assignments and commas (§11.12 to §11.14)
    "a ? b : c; a ? b : c ? d : e; a ? b ? c : d : e; a ? b = c : d = e;",
    "a = b; a = b = c; a.b = c; a[b] = c; (a) = b; (a.b) = c;",
    "a += b; a -= b; a *= b; a /= b; a %= b; a <<= b; a >>= b; a >>>= b; a &= b; a |= b; a ^= b;",
    "a, b; a, b, c; a = b, c = d;",
    // functions (§13)
    "function f() {} function g(a) { return a; } function h(a, b) { return; }",
    "(function () {}); (function f() { f(); }); (function (a, b) { function g() {} return g; })();",
    "a = function () { return function () { return this; }; };",
    "!function () {}(); var f = function () {} + 1;",
    // blocks, variables, empty statements and expressions (§12.1 to §12.4)
    "{} {;} {a; b;} {{}}",
    "var a; var a, b; var a = 1; var a = 1, b, c = a = 2;",
    ";;;",
    // `if`: an `else` belongs to the nearest (§12.5)
    "if (a) b; if (a) b; else c; if (a) {} else if (b) {} else {}",
    "if (a) if (b) c; else d;",
    "if (a) while (b) if (c) d; else e; else f;",
    "if (a) ; else ;",
    "if (a) b\nelse c",
    // loops (§12.6)
    "do a; while (b); do {} while (a)",
    "do a\nwhile (b)\nc;",
    "while (a) b; while (a) {} while (a) ;",
    "for (;;) {} for (a;;) {} for (;a;) {} for (;;a) {} for (a; b; c) d;",
    "for (var a; ;) {} for (var a = 1, b; a < b; a++) {} for (a, b; c, d; e, f) {}",
    "for (a in b) {} for (a.b in c) {} for (a[b] in c) {} for ((a) in b) {} for (var a in b) {} for (a in b, c) {}",
    "for (var a = (b in c); ;) {} for ((a in b); ;) {} for (a[b in c]; ;) {} for (a(b in c); ;) {} for ([a in b]; ;) {}",
    "for (a ? b in c : d; ;) {} for (var a = b ? c in d : e; ;) {} for (function () { a in b; }; ;) {}",
    "for (;; a in b) {} for (; a in b;) {} for (new a().b in c) {} for (({a: b in c}); ;) {}",
    // jumps (§12.7 to §12.9, §12.13)
    "while (a) { continue; break; } for (;;) { if (a) continue; else break; }",
    "a: while (b) { continue a; break a; } a: b: for (;;) { continue a; continue b; } a: do break a; while (b)",
    "function f() { return; return a; return a, b; } function g() { return }",
    "throw a; throw a, b; function f() { throw a }",
    // restricted productions: a line end ends them (§7.9.1)
    "function f() { return\na; } function g() { return /* a line end\n */ a; }",
    "a: for (;;) { continue\na } a: for (;;) { break\na }",
    "a\n++b\n--c\nd",
    "a\n++\nb",
    // semicolons that may be missing (§7.9.1)
    "a\nb\nc",
    "{ a } { var b } { a++ }",
    "var a\nvar b = 1\nvar c, d",
    "var a\n(b)\nvar c\n[d]",
    "a++\n(b)",
    "a--\n[b]",
    "function f() { return a } function g() { return a\n}",
    "throw a\nb",
    "a = b\n+ c",
    "a\n(b)",
    "a\n[b]",
    "a\n.b",
    "a\n, b",
    "a\n? b\n: c",
    "a\nin b",
    "a\n= b",
    "while (a) { break } while (a) { continue\n}",
    // `switch` (§12.11)
    "switch (a) {} switch (a) { case b: } switch (a) { default: }",
    "switch (a) { case b: c; d; case e, f: break; default: g; case h: } switch (a) { case b ? c : d: e }",
    // labels, which may stand again beside and in a function (§12.12)
    "a: while (b) {} a: while (b) {}",
    "a: for (;;) { (function () { a: for (;;) { break a; } })(); }",
    "a: for (var a in a) { a = a; }",
    // `try` (§12.14)
    "try {} catch (a) {} try {} finally {} try { a; } catch (b) { c; } finally { d; }",
    // exports
    "export default a;",
    "export default {a, b};",
    "export default {}\n",
    "export default a = b",
    "export default function () {};",
    "export default function f() {} ;",
    "a; export default (a, b); b;",
    "export default a\nb",
    // what strict mode lets pass (§16)
    "eval; arguments; eval(a); arguments[0] = 1; eval.a = 1; ({eval: 1, arguments: 2}); a.eval = 1;",
    "typeof eval; delete eval.a; new arguments(eval);",
    "(function (a) { (function (a) {}); var a; }); function f() { return arguments; }",
];

/// Refused on their one line: their tokens.
const NO_TOKENS: &[&str] = &[
    // characters and comments that begin no token (§7)
    "@",
    "#a",
    "é;",
    "a\\u0061;",
    "`a`",
    "\u{0}",
    "a \u{7f} b",
    "/* open",
    "/*/",
    "a /* open *",
    // numbers (§7.8.3)
    "1.5",
    "1.",
    ".5",
    "a.1",
    "1e3",
    "0x",
    "0xg",
    "1a",
    "1_0",
    "1$",
    "01",
    "00",
    "08",
    "0b1",
    "0o7",
    "9007199254740992",
    "0x20000000000000",
    "1.a",
    "1n",
    // strings (§7.8.4)
    "'a",
    "\"a",
    "'\\",
    "'\\x4'",
    "'\\xg0'",
    "'\\u004'",
    "'\\u{41}'",
    "'\\ud83d'",
    "'\\ud83d\\u0041'",
    "'\\ud83d.'",
    "'\\ude00'",
    "'\\1'",
    "'\\01'",
    "'\\00'",
    "'\\8'",
    "'a\"",
    // marks and forms of later editions
    "a ** b",
    "a => b",
    "(a) => b",
    "a ?? b",
    "a?.b",
    "f(...a)",
    "[...a]",
    "a &&= b",
    "for (a of b) {}",
    "for (var a of b) {}",
    "async function f() {}",
    "try {} catch {}",
    "function f(a,) {}",
    "f(a,)",
    "function f(a = 1) {}",
    "var [a] = b",
    "var {a} = b",
    "function f({a}) {}",
    // reserved words that are no names (§7.6.1)
    "let a;",
    "const a = 1;",
    "class A {}",
    "enum;",
    "yield;",
    "super;",
    "var if;",
    "var let;",
    "a = package;",
    "function static() {}",
    "(function interface() {});",
    "({public});",
    "private: for (;;) {}",
    "try {} catch (protected) {}",
    "for (var implements in a) {}",
    "function f(null) {}",
    "this: for (;;) {}",
    "var undefined, true;",
    "typeof;",
    "a.b.(c)",
];

/// Refused on their one line: their expressions and functions.
const NO_EXPRESSIONS: &[&str] = &[
    // what the language leaves out
    "/a/;",
    "a = /b/;",
    "({get a() {}});",
    "({set a(b) {}});",
    "({a() {}});",
    "({[a]: 1});",
    "({a = 1});",
    "with (a) b;",
    "with (a) {}",
    "debugger;",
    "import a from 'b';",
    "import('a');",
    // object and array literals (§11.1)
    "({if});",
    "({1});",
    "({'a'});",
    "({a b});",
    "({,});",
    "({a:});",
    "({a: 1;});",
    "({a: b, , c: d});",
    "({a: b, c: d};",
    "[a",
    "[a b]",
    "[a;]",
    // expressions (§11)
    "a +;",
    "(a",
    "a)",
    "()",
    "(a,)",
    "a,",
    ",a",
    "a ? b;",
    "a ? b : ;",
    "a ? b, c : d;",
    "a[]",
    "a[b",
    "a.;",
    "a..b",
    "a(,b)",
    "a(b",
    "new;",
    "new a(b",
    "in a",
    "a instanceof",
    "* a",
    "a ! b",
    // targets (§11.3, §11.4, §11.13)
    "1 = a",
    "a() = b",
    "a + b = c",
    "a || b = c",
    "a ? b : c() = d",
    "a++ = b",
    "++a = b",
    "-a = b",
    "new a = b",
    "new a() = b",
    "this = a",
    "null = a",
    "'a' = b",
    "(a, b) = c",
    "(a = b) = c",
    "[a] = b",
    "({a}) = b",
    "a++ ++",
    "++ ++a",
    "++a++",
    "++a()",
    "a()++",
    "--1",
    "1++",
    "++this",
    "a++b",
    "function () {} = a",
    // functions (§13)
    "function () {}",
    "function f( {}",
    "function f(1) {}",
    "function f(a b) {}",
    "function f(, a) {}",
    "function f() {",
    "function f() a;",
    "function f {}",
    "(function f.g() {})",
    "(function (a) )",
    "function f() { } }",
    "function () {}();",
    // functions are declared among the items of a script or a function alone (§12, §14)
    "{ function f() {} }",
    "if (a) function f() {}",
    "while (a) function f() {}",
    "switch (a) { case b: function f() {} }",
    "a: function f() {}",
    "try { function f() {} } finally {}",
];

/// Refused on their one line: their statements.
const NO_STATEMENTS: &[&str] = &[
    // blocks and variables (§12.1, §12.2)
    "{",
    "}",
    "{a",
    "{a}}",
    "var;",
    "var a,;",
    "var a = ;",
    "var a = 1, 2;",
    "var a.b;",
    "var 1;",
    "var a b;",
    "var (a);",
    "var a += 1;",
    // `if` and loops (§12.5, §12.6)
    "if a b;",
    "if (a)",
    "if () b;",
    "if (a) else b;",
    "else a;",
    "if (a) b else c;",
    "if (a) {} else",
    "do a while (b);",
    "do a; while b;",
    "do a;",
    "do while (a);",
    "do a; b; while (c);",
    "do a; while (b) c",
    "while a b;",
    "while (a)",
    "while () a;",
    // heads of `for` (§12.6.3, §12.6.4, §7.9.1)
    "for () a;",
    "for (a) b;",
    "for (;) a;",
    "for (;;;) a;",
    "for (;;)",
    "for a;;b c;",
    "for (var a = 1 in b) {}",
    "for (var a, b in c) {}",
    "for (a + b in c) {}",
    "for (a() in b) {}",
    "for (1 in a) {}",
    "for (++a in b) {}",
    "for (a = b in c) {}",
    "for (a in b;;) {}",
    "for (var a in b;;) {}",
    "for (var a = b in c; ;) {}",
    "for (a = b in c; ;) {}",
    "for (a ? b : c in d; ;) {}",
    "for (a in) b;",
    "for (in a) b;",
    "for (var in a) b;",
    "for (var a;; var b) {}",
    // jumps and `throw` (§12.7 to §12.9, §12.13)
    "while (a) break 1;",
    "while (a) break b c;",
    "while (a) continue b, c;",
    "while (a) continue this;",
    "function f() { return a b; }",
    "throw;",
    "throw",
    "throw a b;",
    "function f() { return var a; }",
    // `switch`, labels and `try` (§12.11, §12.12, §12.14)
    "switch (a) b",
    "switch (a) { b; }",
    "switch (a) { default: default: }",
    "switch (a) { default: case b: default: }",
    "switch (a) { case: b }",
    "switch { }",
    "switch (a) { case b }",
    "switch (a) { case b: c",
    "switch () {}",
    "a: b;",
    "a: {}",
    "a: ;",
    "a: b: c;",
    "a: if (b) {}",
    "a: (b): for (;;) {}",
    "1: for (;;) {}",
    "a: b: try {} finally {}",
    "a:",
    "try {}",
    "try a; catch (b) {}",
    "try {} catch () {}",
    "try {} catch (a) b;",
    "try {} catch (a, b) {}",
    "try {} catch ({a}) {}",
    "try {} finally a;",
    "catch (a) {}",
    "finally {}",
    "try {} finally {} catch (a) {}",
    "try {} catch (a) {} catch (b) {}",
    // semicolons that may not be missing (§7.9.1)
    "a b",
    "{ a b }",
    "a = b c",
    "a ++ b",
    "a /* no line end */ b",
    "while (a) b c",
    "(a) b",
    // exports
    "export a;",
    "export {a};",
    "export default;",
    "export default",
    "export",
    "export default a, b;",
    "export default a b;",
    "export default var a;",
    "export default a; export default b;",
    "export var a;",
    "export function f() {}",
    "export * from 'a';",
    "{ export default a; }",
    "function f() { export default a; }",
    "if (a) export default b;",
    "a: export default b;",
    "default a;",
    "export default class {}",
    // a fault of the grammar stands before an early refusal
    "break; @",
    "delete a; b c",
];

/// Refused on one of their lines.
const NO_SCRIPTS: &[&str] = &[
    "'a\nb'",
    "'a\u{2028}b'",
    "for (a\nb\nc) d;",
    "for (a; b\n) c;",
    "for (var a\n;;\n",
    "throw\na;",
    "a\nb c",
    "a\n* * b",
    "a\n! b c",
    "export\ndefault\na b",
    "return;\nfunction f(a, a) {",
];

/// Refused early, with the kind and the line of the first refusal.
const EARLY: &[(&str, EarlyKind, u32)] = &[
    // equal parameters
    ("function f(a, a) {}", EarlyKind::Parameter, 1),
    ("(function (a, b, a) {});", EarlyKind::Parameter, 1),
    ("a;\n(function (b,\nb) {});", EarlyKind::Parameter, 2),
    (
        "export default function (a, a) {};",
        EarlyKind::Parameter,
        1,
    ),
    // `eval` and `arguments`
    ("function f(eval) {}", EarlyKind::Reserved, 1),
    ("(function (a, arguments) {});", EarlyKind::Reserved, 1),
    ("var eval;", EarlyKind::Reserved, 1),
    ("var a,\narguments = 1;", EarlyKind::Reserved, 1),
    ("function eval() {}", EarlyKind::Reserved, 1),
    ("(function arguments() {});", EarlyKind::Reserved, 1),
    ("try {\n} catch (eval) {}", EarlyKind::Reserved, 1),
    ("eval = 1;", EarlyKind::Reserved, 1),
    ("arguments += 1;", EarlyKind::Reserved, 1),
    ("eval++;", EarlyKind::Reserved, 1),
    ("--arguments;", EarlyKind::Reserved, 1),
    ("++\neval;", EarlyKind::Reserved, 2),
    ("(\neval) = 1;", EarlyKind::Reserved, 2),
    ("for (eval in a) {}", EarlyKind::Reserved, 1),
    ("for (\neval in a) {}", EarlyKind::Reserved, 2),
    ("for (\nvar arguments in a) {}", EarlyKind::Reserved, 1),
    ("for (\nvar a, eval;;) {}", EarlyKind::Reserved, 1),
    ("a = b =\neval = c;", EarlyKind::Reserved, 2),
    // `delete` of a name
    ("delete a;", EarlyKind::Delete, 1),
    ("delete (a);", EarlyKind::Delete, 1),
    ("delete ((eval));", EarlyKind::Delete, 1),
    ("!\ndelete a;", EarlyKind::Delete, 2),
    ("a;\n\nb(delete c);", EarlyKind::Delete, 3),
    ("export default [delete a];", EarlyKind::Delete, 1),
    ("({a: delete b});", EarlyKind::Delete, 1),
    ("var a = delete b;", EarlyKind::Delete, 1),
    ("switch (a) { case delete b: }", EarlyKind::Delete, 1),
    // `break`
    ("break;", EarlyKind::Break, 1),
    ("if (a) break;", EarlyKind::Break, 1),
    (
        "while (a) { (function () {\nbreak; })(); }",
        EarlyKind::Break,
        2,
    ),
    ("a: while (b) { break c; }", EarlyKind::Break, 1),
    ("break a;", EarlyKind::Break, 1),
    (
        "a: while (b) { (function () { while (c) break a; })(); }",
        EarlyKind::Break,
        1,
    ),
    ("switch (a) { case b: break c; }", EarlyKind::Break, 1),
    ("a: while (b) {}\nwhile (c) break a;", EarlyKind::Break, 2),
    // `continue`
    ("continue;", EarlyKind::Continue, 1),
    ("switch (a) { case b: continue; }", EarlyKind::Continue, 1),
    ("while (a) { continue b; }", EarlyKind::Continue, 1),
    (
        "while (a) { (function () { continue; }); }",
        EarlyKind::Continue,
        1,
    ),
    (
        "a: for (;;) (function () { for (;;) continue a; });",
        EarlyKind::Continue,
        1,
    ),
    // labels
    ("a: a: while (b) {}", EarlyKind::Label, 1),
    ("a: while (b) {\n\na: while (c) {} }", EarlyKind::Label, 3),
    ("a: b: a: for (;;) {}", EarlyKind::Label, 1),
    (
        "a: for (;;) { if (b) { a: do ; while (c) } }",
        EarlyKind::Label,
        1,
    ),
    // `return`
    ("return;", EarlyKind::Return, 1),
    ("return a;", EarlyKind::Return, 1),
    ("if (a) { return; }", EarlyKind::Return, 1),
    ("while (a) return b;", EarlyKind::Return, 1),
    ("a;\nreturn", EarlyKind::Return, 2),
    ("function f() {} return;", EarlyKind::Return, 1),
    // the first in order of the text, of two that begin together the outer, and of two on one node the first kind
    ("function eval(a, a) {}", EarlyKind::Parameter, 1),
    ("function f(eval, eval) {}", EarlyKind::Parameter, 1),
    ("delete a; break;", EarlyKind::Delete, 1),
    ("continue; break;", EarlyKind::Continue, 1),
    (
        "function f(a, a) { return delete b; }",
        EarlyKind::Parameter,
        1,
    ),
    ("return delete a;", EarlyKind::Return, 1),
    ("eval = delete a;", EarlyKind::Reserved, 1),
    ("a = delete b, eval = 1;", EarlyKind::Delete, 1),
    (
        "try {\ndelete a;\n} catch (eval) {}",
        EarlyKind::Reserved,
        1,
    ),
    (
        "function f() {\ndelete a;\nfunction g(b, b) {}\n}",
        EarlyKind::Delete,
        2,
    ),
    ("for (var eval in delete a) {}", EarlyKind::Reserved, 1),
    ("eval(delete a, eval = 1);", EarlyKind::Delete, 1),
    ("a: for (;;) { a: for (;;) break b; }", EarlyKind::Label, 1),
    // lines (§7.3)
    ("/*\n*/ 'a\\\n'; delete b;", EarlyKind::Delete, 3),
    (
        "a;\r\nb;\rc;\u{2028}d;\u{2029}delete e;",
        EarlyKind::Delete,
        5,
    ),
    ("// a\n// b\r\ndelete c;", EarlyKind::Delete, 3),
    ("'a\\\r\nb\\\u{2028}'; delete c;", EarlyKind::Delete, 3),
];

/// Scripts as pieces, each so many times, and why they are refused: at the greatest depths and counts, and past them.
const AT_LIMITS: &[(&[(&str, usize)], Option<ScriptWhy>)] = &[
    (&[("!", 998), ("a;", 1)], None),
    (&[("export default ", 1), ("!", 999), ("a;", 1)], None),
    (&[("a+", 998), ("a;", 1)], None),
    (
        &[
            ("f(", 1),
            ("0, ", 254),
            ("0); new f(", 1),
            ("0, ", 254),
            ("0);", 1),
        ],
        None,
    ),
    (&[("(", 200), ("a", 1), (")", 200)], None),
    (
        &[
            ("[", 200),
            ("]", 200),
            ("; {", 1),
            ("(", 199),
            ("a", 1),
            (")", 199),
            ("}", 1),
        ],
        None,
    ),
    (
        &[("(", 201), ("a", 1), (")", 201)],
        Some(ScriptWhy::TooDeep(1)),
    ),
    (
        &[("\n", 1), ("[", 200), ("\n{", 1)],
        Some(ScriptWhy::TooDeep(3)),
    ),
    (&[("(", 199), ("[{", 1)], Some(ScriptWhy::TooDeep(1))),
    (
        &[("a;\n", 1), ("{", 201), (" @", 1)],
        Some(ScriptWhy::TooDeep(2)),
    ),
    (&[("(", 200), ("\n) ( (", 1)], Some(ScriptWhy::TooDeep(2))),
    (&[("(", 200), ("] (", 1)], Some(ScriptWhy::Syntax(1))),
    (&[("@", 1), ("(", 201)], Some(ScriptWhy::Syntax(1))),
    (&[("!", 999), ("a;", 1)], Some(ScriptWhy::Syntax(1))),
    (
        &[("export default ", 1), ("!", 1000), ("a;", 1)],
        Some(ScriptWhy::Syntax(1)),
    ),
    (&[("a+", 999), ("a;", 1)], Some(ScriptWhy::Syntax(1))),
    (
        &[("f(delete a", 1), (", 0", 255), (");", 1)],
        Some(ScriptWhy::Early(EarlyKind::Count, 1)),
    ),
    (
        &[("f(", 1), ("0, ", 255), ("0);", 1)],
        Some(ScriptWhy::Early(EarlyKind::Count, 1)),
    ),
    (
        &[("a;\nnew f(", 1), ("0, ", 255), ("0);", 1)],
        Some(ScriptWhy::Early(EarlyKind::Count, 2)),
    ),
    (&[("a = ", 998), ("a", 1)], None),
    (&[("a = ", 999), ("a", 1)], Some(ScriptWhy::Syntax(1))),
    (&[("a ? b : ", 998), ("c", 1)], None),
    (&[("a ? b : ", 999), ("c", 1)], Some(ScriptWhy::Syntax(1))),
    (&[("new ", 998), ("a", 1)], None),
    (&[("new ", 999), ("a", 1)], Some(ScriptWhy::Syntax(1))),
    (&[("a", 1), (".a", 998)], None),
    (&[("a", 1), (".a", 999)], Some(ScriptWhy::Syntax(1))),
    (&[("if (a) ", 999), (";", 1)], None),
    (&[("if (a) ", 1000), (";", 1)], Some(ScriptWhy::Syntax(1))),
    (&[("while (a) ", 999), (";", 1)], None),
    (
        &[("while (a) ", 1000), (";", 1)],
        Some(ScriptWhy::Syntax(1)),
    ),
    (&[("do ", 999), (";", 1), (" while (a);", 999)], None),
    (
        &[("do ", 1000), (";", 1), (" while (a);", 1000)],
        Some(ScriptWhy::Syntax(1)),
    ),
    (&[("for (;;) ", 999), (";", 1)], None),
    (&[("for (;;) ", 1000), (";", 1)], Some(ScriptWhy::Syntax(1))),
    (&[("for (var a = b; a; a) ", 999), (";", 1)], None),
    (&[("for (a = b; a; a) ", 998), (";", 1)], None),
    (
        &[("for (a = b; a; a) ", 999), (";", 1)],
        Some(ScriptWhy::Syntax(1)),
    ),
    (&[("for (a in b) ", 999), (";", 1)], None),
    (
        &[("for (a in b) ", 1000), (";", 1)],
        Some(ScriptWhy::Syntax(1)),
    ),
    (&[("(function () { ", 100), ("})", 100)], None),
    (
        &[("(function () { ", 101), ("})", 101)],
        Some(ScriptWhy::TooDeep(1)),
    ),
];

// Why a script is refused, where it is refused for another cause than that it isn't run yet.
fn refusal(alloc: Global, text: &str) -> Result<Option<ScriptWhy>, NoMemory> {
    match script_from(alloc, text.as_bytes()) {
        Ok(_) | Err(ScriptStop::Refused(ScriptWhy::NotBuilt(_))) => Ok(None),
        Err(ScriptStop::Refused(why)) => Ok(Some(why)),
        Err(ScriptStop::NoMemory) => Err(NoMemory),
    }
}

#[test]
fn scripts_are_accepted(rt: HostRuntime) -> Result<(), Fail> {
    for text in ACCEPTED {
        assert_eq!(rt; refusal(rt.alloc(), text)?, None, "of {text}");
    }
    Ok(())
}

#[test]
fn texts_are_no_scripts(rt: HostRuntime) -> Result<(), Fail> {
    for table in [NO_TOKENS, NO_EXPRESSIONS, NO_STATEMENTS] {
        for text in table {
            assert_eq!(rt;
                refusal(rt.alloc(), text)?,
                Some(ScriptWhy::Syntax(1)),
                "of {text}"
            );
        }
    }
    for text in NO_SCRIPTS {
        let why = refusal(rt.alloc(), text)?;
        assert!(rt; matches!(why, Some(ScriptWhy::Syntax(_))), "of {text}");
    }
    Ok(())
}

#[test]
fn scripts_are_refused_early(rt: HostRuntime) -> Result<(), Fail> {
    for (text, kind, line) in EARLY {
        let why = ScriptWhy::Early(*kind, *line);
        assert_eq!(rt; refusal(rt.alloc(), text)?, Some(why), "of {text}");
    }
    Ok(())
}

fn repeated(alloc: Global, pieces: &[(&str, usize)]) -> Result<String, NoMemory> {
    let mut text = String::new(alloc);
    for (piece, times) in pieces {
        for _ in 0..*times {
            text.push_str(piece)?;
        }
    }
    Ok(text)
}

#[test]
fn limits_of_depth_and_count_are_kept(rt: HostRuntime) -> Result<(), Fail> {
    for (pieces, why) in AT_LIMITS {
        let text = repeated(rt.alloc(), pieces)?;
        assert_eq!(rt; refusal(rt.alloc(), text.as_str())?, *why);
    }
    Ok(())
}

// A function of so many parameters, each with a name of its own.
fn parameters(alloc: Global, count: u32) -> Result<String, NoMemory> {
    let mut text = String::from_str(alloc, "function f(p")?;
    for number in 1..count {
        let parameter = format!(in alloc; ", p{number}")?;
        text.push_str(parameter.as_str())?;
    }
    text.push_str(") {}")?;
    Ok(text)
}

#[test]
fn a_function_has_at_most_255_parameters(rt: HostRuntime) -> Result<(), Fail> {
    let alloc = rt.alloc();
    let text = parameters(alloc, 255)?;
    assert_eq!(rt; refusal(alloc, text.as_str())?, None);
    let text = parameters(alloc, 256)?;
    let why = ScriptWhy::Early(EarlyKind::Count, 1);
    assert_eq!(rt; refusal(alloc, text.as_str())?, Some(why));
    Ok(())
}
