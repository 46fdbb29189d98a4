// Whether a script is of the form that runs so far.
ghost use Rattle.std.specs.Prelude.{◌≡◌, MatchResult, Ok, Err};
ghost use Rattle.njs_conn.specs.FirstForm as spec;

use njs_text::Text;
use njs_tree::{Expr, ExprNode, FunctionTree, Item, Stmt, StmtNode};

fn unless(test: bool, line: u32) -> Result<(), u32>
    ensures { result ≡ spec.unless test line }
{
    if test { Ok(()) } else { Err(line) }
}

fn is_string(e: &Expr) -> Result<(), u32>
    ensures { result ≡ spec.is_string e.now }
{
    match &e.node {
        ExprNode::Str(_) => Ok(()),
        _ => Err(e.line),
    }
}

fn is_status(e: &Expr) -> Result<(), u32>
    ensures { result ≡ spec.is_status e.now }
{
    match &e.node {
        ExprNode::Num(number) => unless(*number == 200, e.line),
        _ => Err(e.line),
    }
}

fn names(name: &Text, e: &Expr) -> Result<(), u32>
    ensures { result ≡ spec.names name.now e.now }
{
    match &e.node {
        ExprNode::Name(own) => unless(*own == *name, e.line),
        _ => Err(e.line),
    }
}

fn is_return(name: &Text) -> bool
    ensures { result ≡ spec.is_return name.now }
{
    name.as_str() == "return"
}

// `PARAMETER.return`
fn is_callee(parameter: &Text, e: &Expr) -> Result<(), u32>
    ensures { result ≡ spec.is_callee parameter.now e.now }
{
    match &e.node {
        ExprNode::Member(object, name) if is_return(name) => names(parameter, object.get()),
        _ => Err(e.line),
    }
}

// `200, STRING`
fn are_arguments(line: u32, arguments: &[Expr]) -> Result<(), u32>
    ensures { result ≡ spec.arguments_by line arguments.now }
{
    match arguments {
        [status, body] => {
            is_status(status)?;
            is_string(body)
        }
        _ => Err(line),
    }
}

fn has_two(arguments: &[Expr]) -> bool
    ensures { result ≡ spec.has_two arguments.now }
{
    matches!(arguments, [_, _])
}

// `PARAMETER.return(200, STRING)`
fn is_call(parameter: &Text, e: &Expr) -> Result<(), u32>
    ensures { result ≡ spec.is_call parameter.now e.now }
{
    match &e.node {
        ExprNode::Call(callee, arguments) if has_two(arguments.as_slice()) => {
            is_callee(parameter, callee.get())?;
            are_arguments(e.line, arguments.as_slice())
        }
        _ => Err(e.line),
    }
}

fn is_statement(parameter: &Text, s: &Stmt) -> Result<(), u32>
    ensures { result ≡ spec.is_statement parameter.now s.now }
{
    match &s.node {
        StmtNode::Expr(e) => is_call(parameter, e),
        _ => Err(s.line),
    }
}

// The name of the function.
fn function_by<'a>(
    line: u32,
    name: &'a Option<Text>,
    parameters: &[Text],
    body: &[Stmt],
) -> Result<&'a Text, u32>
    ensures { MatchResult result (λ found. spec.function_by line name.now parameters.now body.now ≡ Ok found.now) (λ at. spec.function_by line name.now parameters.now body.now ≡ Err at) }
{
    match (name, parameters, body) {
        (Some(name), [parameter], [s]) => {
            is_statement(parameter, s)?;
            Ok(name)
        }
        _ => Err(line),
    }
}

fn declared_name(item: &Item) -> Result<&Text, u32>
    ensures { MatchResult result (λ found. spec.declared_name item.now ≡ Ok found.now) (λ at. spec.declared_name item.now ≡ Err at) }
{
    match item {
        Item::Stmt(s) => declaration(s),
        Item::Export(line, _) => Err(*line),
    }
}

fn declaration(s: &Stmt) -> Result<&Text, u32>
    ensures { MatchResult result (λ found. spec.declaration_by s.now ≡ Ok found.now) (λ at. spec.declaration_by s.now ≡ Err at) }
{
    match &s.node {
        StmtNode::FunctionDecl(function) => function_by(
            s.line,
            &function.name,
            function.params.as_slice(),
            function.body.as_slice(),
        ),
        _ => Err(s.line),
    }
}

// `{ NAME }`
fn is_property(name: &Text, line: u32, properties: &[(Text, Expr)]) -> Result<(), u32>
    ensures { result ≡ spec.property_by name.now line properties.now }
{
    match properties {
        [(key, value)] if *key == *name => names(name, value),
        _ => Err(line),
    }
}

fn is_object(name: &Text, e: &Expr) -> Result<(), u32>
    ensures { result ≡ spec.is_object name.now e.now }
{
    match &e.node {
        ExprNode::Object(properties) => is_property(name, e.line, properties.as_slice()),
        _ => Err(e.line),
    }
}

fn exports(name: &Text, item: &Item) -> Result<(), u32>
    ensures { result ≡ spec.exports name.now item.now }
{
    match item {
        Item::Export(_, e) => is_object(name, e),
        Item::Stmt(s) => Err(s.line),
    }
}

fn item_line(item: &Item) -> u32
    ensures { result ≡ spec.item_line item.now }
{
    match item {
        Item::Stmt(s) => s.line,
        Item::Export(line, _) => *line,
    }
}

fn is_over(items: &[Item]) -> Result<(), u32>
    ensures { result ≡ spec.is_over items.now }
{
    match items {
        [] => Ok(()),
        [item, ..] => Err(item_line(item)),
    }
}

fn exports_by(name: &Text, items: &[Item]) -> Result<(), u32>
    ensures { result ≡ spec.exports_by name.now items.now }
{
    match items {
        [] => Err(1),
        [item, rest @ ..] => {
            exports(name, item)?;
            is_over(rest)
        }
    }
}

/// Whether the items of a script are of the form that runs so far: else the line of the first node, in order of the text, that
/// isn't of it, or 1 where a node is missing.
pub(crate) fn is_of_form(items: &[Item]) -> Result<(), u32>
    ensures { result ≡ spec.form_of items.now }
{
    match items {
        [] => Err(1),
        [item, rest @ ..] => match declared_name(item) {
            Ok(name) => exports_by(name, rest),
            Err(line) => Err(line),
        },
    }
}
