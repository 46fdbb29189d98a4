// Runs a handler on its tree, as far as its nodes have a meaning yet.
ghost use Rattle.std.specs.Prelude.{◌≡◌, IfOk};
ghost use Rattle.std.specs.Option.{option_map};
ghost use Rattle.njs_conn.specs.Nodes.{expr_node, stmt_node};
ghost use Rattle.njs_conn.specs.Meaning.{answer_of, body_of, call_of, callee_of, declared_by, effect_of, exported, function_at, function_named, handled_by, handler_of, if_named, location_of, member, parameter, property, property_of, reply_of, request_member, returned, statement, value_of, value_of_name};
ghost use Rattle.njs_conn.specs.Running.{seen_reply, seen_value};
ghost use Rattle.http_out.specs.Reply.{IsReply};

use crate::plain::{plain_text, without_body};
use crate::site::Site;
use crate::values::{Answer, Value};
use conf_read::Location;
use http_in::Request;
use http_out::Reply;
use njs_text::{NoMemory, Text};
use njs_tree::{Expr, ExprNode, FunctionTree, Item, Stmt, StmtNode};
use std::alloc::Global;

fn if_named<'a>(
    name: &Text,
    own: &Option<Text>,
    function: &'a FunctionTree,
) -> Option<&'a FunctionTree>
    ensures { option_map (λ f. f.now) result ≡ if_named name.now own.now function.now }
{
    match own {
        Some(own) if *own == *name => Some(function),
        _ => None,
    }
}

fn declared_by<'a>(name: &Text, item: &'a Item) -> Option<&'a FunctionTree>
    ensures { option_map (λ f. f.now) result ≡ declared_by name.now item.now }
{
    let Item::Stmt(stmt) = item else {
        return None;
    };
    match &stmt.node {
        StmtNode::FunctionDecl(function) => if_named(name, &function.name, function),
        _ => None,
    }
}

fn function_named<'a>(name: &Text, script: &'a [Item]) -> Option<&'a FunctionTree>
    ensures { option_map (λ f. f.now) result ≡ function_named name.now script.now }
{
    let mut found = None;
    for item in script {
        if let Some(function) = declared_by(name, item) {
            found = Some(function);
        }
    }
    found
}

fn parameter<'a>(name: &Text, parameters: &[Text]) -> Option<Value<'a>>
    ensures { option_map seen_value result ≡ parameter name.now parameters.now }
{
    match parameters {
        [] => None,
        [first, rest @ ..] => {
            if rest.contains(name) {
                Some(Value::Undefined)
            } else if *first == *name {
                Some(Value::Request)
            } else {
                None
            }
        }
    }
}

fn value_of_name<'a>(script: &'a [Item], parameters: &[Text], name: &Text) -> Option<Value<'a>>
    ensures { option_map seen_value result ≡ value_of_name script.now parameters.now name.now }
{
    if let Some(value) = parameter(name, parameters) {
        return Some(value);
    }
    match function_named(name, script) {
        Some(function) => Some(Value::Function(function)),
        None => None,
    }
}

fn value_of<'a>(script: &'a [Item], parameters: &[Text], e: &'a Expr) -> Option<Value<'a>>
    ensures { option_map seen_value result ≡ value_of script.now parameters.now (expr_node e.now) }
{
    match &e.node {
        ExprNode::Num(number) => Some(Value::Number(*number)),
        ExprNode::Str(text) => Some(Value::String(text)),
        ExprNode::Name(name) => value_of_name(script, parameters, name),
        _ => None,
    }
}

fn request_member<'a>(name: &Text) -> Option<Value<'a>>
    ensures { option_map seen_value result ≡ request_member name.now }
{
    if name.as_str() == "return" {
        Some(Value::ReturnMethod)
    } else {
        None
    }
}

fn member<'a>(value: Value<'a>, name: &Text) -> Option<Value<'a>>
    ensures { option_map seen_value result ≡ member (seen_value value.entry) name.now }
{
    match value {
        Value::Request => request_member(name),
        _ => None,
    }
}

fn callee_of<'a>(script: &'a [Item], parameters: &[Text], e: &'a Expr) -> Option<Value<'a>>
    ensures { option_map seen_value result ≡ callee_of script.now parameters.now (expr_node e.now) }
{
    match &e.node {
        ExprNode::Member(object, name) => match value_of(script, parameters, object.get()) {
            Some(value) => member(value, name),
            None => None,
        },
        _ => None,
    }
}

fn returned<'a>(status: Value<'a>, body: Value<'a>) -> Option<Answer<'a>>
    ensures { option_map seen_reply result ≡ returned (seen_value status.entry) (seen_value body.entry) }
{
    match (status, body) {
        (Value::Number(200), Value::String(body)) => Some(Answer { status: 200, body }),
        _ => None,
    }
}

fn call_of<'a>(
    script: &'a [Item],
    parameters: &[Text],
    callee: Value<'a>,
    arguments: &'a [Expr],
) -> Option<Answer<'a>>
    ensures { option_map seen_reply result ≡ call_of script.now parameters.now (seen_value callee.entry) arguments.now }
{
    let Value::ReturnMethod = callee else {
        return None;
    };
    let [status, body] = arguments else {
        return None;
    };
    match value_of(script, parameters, status) {
        Some(status) => match value_of(script, parameters, body) {
            Some(body) => returned(status, body),
            None => None,
        },
        None => None,
    }
}

fn effect_of<'a>(script: &'a [Item], parameters: &[Text], e: &'a Expr) -> Option<Answer<'a>>
    ensures { option_map seen_reply result ≡ effect_of script.now parameters.now (expr_node e.now) }
{
    match &e.node {
        ExprNode::Call(callee, arguments) => match callee_of(script, parameters, callee.get()) {
            Some(callee) => call_of(script, parameters, callee, arguments.as_slice()),
            None => None,
        },
        _ => None,
    }
}

fn statement<'a>(script: &'a [Item], parameters: &[Text], stmt: &'a Stmt) -> Option<Answer<'a>>
    ensures { option_map seen_reply result ≡ statement script.now parameters.now (stmt_node stmt.now) }
{
    match &stmt.node {
        StmtNode::Expr(e) => effect_of(script, parameters, e),
        _ => None,
    }
}

fn body_of<'a>(script: &'a [Item], parameters: &[Text], body: &'a [Stmt]) -> Option<Answer<'a>>
    ensures { option_map seen_reply result ≡ body_of script.now parameters.now body.now }
{
    match body {
        [only] => statement(script, parameters, only),
        _ => None,
    }
}

fn exported(script: &[Item]) -> Option<&Expr>
    ensures { option_map (λ e. e.now) result ≡ exported script.now }
{
    for item in script {
        if let Item::Export(_, value) = item {
            return Some(value);
        }
    }
    None
}

fn property<'a>(name: &Text, properties: &'a [(Text, Expr)]) -> Option<&'a Expr>
    ensures { option_map (λ e. e.now) result ≡ property name.now properties.now }
{
    let mut found = None;
    for property in properties {
        if property.0 == *name {
            found = Some(&property.1);
        }
    }
    found
}

fn property_of<'a>(name: &Text, e: &'a Expr) -> Option<&'a Expr>
    ensures { option_map (λ e. e.now) result ≡ property_of name.now (expr_node e.now) }
{
    match &e.node {
        ExprNode::Object(properties) => property(name, properties.as_slice()),
        _ => None,
    }
}

fn function_at<'a>(script: &'a [Item], e: &'a Expr) -> Option<&'a FunctionTree>
    ensures { option_map (λ f. f.now) result ≡ function_at script.now e.now }
{
    match value_of(script, &[], e) {
        Some(Value::Function(function)) => Some(function),
        _ => None,
    }
}

fn handler_of<'a>(script: &'a [Item], name: &Text) -> Option<&'a FunctionTree>
    ensures { option_map (λ f. f.now) result ≡ handler_of script.now name.now }
{
    match exported(script) {
        Some(object) => match property_of(name, object) {
            Some(value) => function_at(script, value),
            None => None,
        },
        None => None,
    }
}

fn answer_of<'a>(script: &'a [Item], function: &'a FunctionTree) -> Option<Answer<'a>>
    ensures { option_map seen_reply result ≡ answer_of script.now function.now }
{
    body_of(script, function.params.as_slice(), function.body.as_slice())
}

fn location_of<'a>(site: &'a Site, path: &Text) -> Option<&'a Location>
    ensures { option_map (λ l. l.now) result ≡ location_of site.now path.now }
{
    let conf = site.conf();
    match conf.choose(path) {
        Some(place) => conf.locations.as_slice().get(place as usize),
        None => None,
    }
}

fn handled_by<'a>(site: &'a Site, location: &Location) -> Option<Answer<'a>>
    ensures { option_map seen_reply result ≡ handled_by site.now location.now }
{
    let script = match site.trees().get(location.module as usize) {
        Some(tree) => tree.script().items.as_slice(),
        None => return None,
    };
    match handler_of(script, &location.handler) {
        Some(function) => answer_of(script, function),
        None => None,
    }
}

// What a handler answers, as a reply of its own.
fn owned(alloc: Global, answer: Answer<'_>) -> Result<Reply, NoMemory>
    ensures reply { IfOk result (λ reply. reply ≡ seen_reply answer.entry) }
    ensures valid { IfOk result IsReply }
{
    let body = answer.body.copy(alloc)?;
    Ok(plain_text(alloc, answer.status, body))
}

/// The reply to a request.
pub(crate) fn reply_to(alloc: Global, site: &Site, request: &Request) -> Result<Reply, NoMemory>
    ensures reply { IfOk result (λ reply. reply ≡ reply_of site.now request.now) }
    ensures valid { IfOk result IsReply }
{
    let Some(location) = location_of(site, &request.path) else {
        return Ok(without_body(alloc, 404));
    };
    match handled_by(site, location) {
        Some(answer) => owned(alloc, answer),
        None => Ok(without_body(alloc, 500)),
    }
}
