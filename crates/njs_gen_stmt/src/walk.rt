//! The walk over a tree that makes the code of the functions in it, in order of the text, an outer one before those in it. What was
//! refused once stays so; the walk goes on, since a scope with too many names may still stand behind. The recursion is as deep as the
//! tree.
ghost use Rattle.std.specs.Prelude.{◌≡◌, ◌+◌, ◌++◌, ◌∷◌, ℕ, List, [], map, length, false, ◌||◌, None, IfOk, MatchResult};
ghost use Rattle.std.specs.Option.{option_map, option_map_or};
ghost use Rattle.njs_tree.specs.declared.tree.FunctionTree.{out-FunctionTree};
ghost use Rattle.njs_meaning.specs.Meaning.{declared_as};
ghost use Rattle.njs_meaning.specs.Places.{Around, Bindings};
ghost use Rattle.njs_meaning.specs.Parts.{one, each, each_held, each_named};
ghost use Rattle.njs_code.specs.declared.code.FunctionCode.{FunctionCode as SomeCode};
ghost use Rattle.njs_meaning.specs.declared.place.Place.{Place as SomePlace};
ghost use Rattle.njs_simul.specs.EmissionOfStatements.{slots_of};
ghost use Rattle.njs_simul.specs.Compiled.{function_expression, name_part};
ghost use Rattle.njs_scope.specs.Uses as uses;
ghost use Rattle.njs_gen_expr.specs.Trees as code;
ghost use Rattle.njs_gen_stmt.specs.Functions.{IsIn, Refused, told, told_all};
ghost use Rattle.njs_gen_stmt.specs.Statements.{in_turn, in_turn_uses, optional, optional_uses, first, first_uses, otherwise, otherwise_uses, cases, cases_uses, caught, caught_uses};
ghost use Rattle.njs_gen_stmt.specs.Walked.{Walked, Reached, AreMade, Same, Found, found, IsUnbroken, IsInside, Remembers, unwritten, code_in, variables, variables_uses, declaration_part, declaration_uses};

use crate::function::{Declaration, Known, arguments, function_ops};
use njs_code::FunctionCode;
use njs_gen_expr::{Fault, MAX_OPS};
use njs_meaning::Place;
use njs_text::{List, NoMemory, Text};
use njs_tree::{Case, Expr, ExprNode, ForFirst, ForInHead, FunctionTree, Stmt, StmtNode};
use sqlite_items::{Boxed, Items};
use std::alloc::Global;
use std::mem;

/// The most names that a scope may have.
pub const MAX_SLOTS: usize = 65_535;

/// What the walk found.
#[derive(Drop)]
pub struct Walk<'a> {
    pub alloc: Global,
    /// The names of the scopes that are still to begin.
    pub scopes: &'a [List<(Text, bool)>],
    /// The places of the names that are still to be used.
    pub places: &'a [Place],
    pub functions: List<FunctionCode>,
    /// The functions that are declared in the function around.
    pub declared: List<Declaration>,
    /// Whether the function around names `arguments`.
    pub names_arguments: bool,
    /// Whether a function has more names in its scope than slots may be.
    pub crowded: bool,
    /// How many operations the functions have together.
    pub operations: usize,
    pub fault: Option<Fault>,
}

/// What was known before a function began.
#[derive(Drop)]
pub struct Begun<'a> {
    pub names: &'a [(Text, bool)],
    pub slots: List<u32>,
    pub number: usize,
    pub places: &'a [Place],
    pub declared: List<Declaration>,
    pub names_arguments: bool,
}

fn either(a: bool, b: bool) -> bool
    ensures { result ≡ (a || b) }
{
    a || b
}

// The first refusal stays.
fn refuse(w: &mut Walk<'_>)
    ensures ended { IsUnbroken w.new.fault → ⊥ }
    ensures holds { (f : Found) → Reached w.old f → Reached w.new f }
{
    if w.fault.is_none() {
        w.fault = Some(Fault::NoMemory);
    }
}

// A name is used.
fn pass_name(w: &mut Walk<'_>)
    ensures stays { IsUnbroken w.new.fault → IsUnbroken w.old.fault }
    ensures passed { (f : Found) (place : SomePlace) → Reached w.old (record f { places = place ∷ f.places }) → Reached w.new f }
{
    if let [_, rest @ ..] = w.places {
        w.places = rest;
    }
}

// A scope begins.
fn next_scope<'a>(w: &mut Walk<'a>) -> &'a [(Text, bool)]
    ensures stays { IsUnbroken w.new.fault → IsUnbroken w.old.fault }
    ensures passed { (f : Found) (names : _) → Reached w.old (record f { scopes = names ∷ f.scopes }) → Reached w.new f × (result.now ≡ names) }
{
    match w.scopes {
        [] => &[],
        [names, rest @ ..] => {
            w.scopes = rest;
            names.as_slice()
        }
    }
}

// So many slots, and then those of the scopes around.
fn with_scope(w: &mut Walk<'_>, count: usize, around: &[u32]) -> List<u32>
    ensures stays { IsUnbroken w.new.fault → IsUnbroken w.old.fault }
    ensures holds { (f : Found) → Reached w.old f → Reached w.new f }
    ensures given { IsUnbroken w.new.fault → result ≡ count ∷ around.now }
{
    match slots(w.alloc, count, around) {
        Ok(slots) => slots,
        Err(NoMemory) => {
            refuse(w);
            List::new(w.alloc)
        }
    }
}

fn slots(alloc: Global, count: usize, around: &[u32]) -> Result<List<u32>, NoMemory>
    ensures { IfOk result (λ slots. slots ≡ count ∷ around.now) }
{
    let Ok(own) = u32::try_from(count) else {
        return Err(NoMemory)
    };
    let mut slots = Vec::from_slice(alloc, around)?;
    slots.insert(0, own)?;
    Ok(List::from_vec(slots))
}

// What is declared from here on is declared in another function; what was declared before.
fn without_declared(w: &mut Walk<'_>) -> List<Declaration>
    ensures stays { IsUnbroken w.new.fault → IsUnbroken w.old.fault }
    ensures taken { (f : Found) → Reached w.old f → Reached w.new (record f { declared = [] }) × (IsUnbroken w.old.fault → told_all result ≡ f.declared) }
{
    mem::replace(&mut w.declared, List::new(w.alloc))
}

// A place for the code of a function that is not written yet.
fn reserve(w: &mut Walk<'_>)
    ensures stays { IsUnbroken w.new.fault → IsUnbroken w.old.fault }
    ensures reserved { (f : Found) → Reached w.old f → Reached w.new (record f { functions = f.functions ++ unwritten ∷ [] }) }
{
    let code = FunctionCode {
        params: 0,
        builds: true,
        slots: List::new(w.alloc),
        ops: List::new(w.alloc),
    };
    match w.functions.push(code) {
        Ok(()) => {}
        Err(NoMemory) => refuse(w),
    }
}

// A function begins, whose number is that of the functions in front of it.
fn begin_function<'a>(w: &mut Walk<'a>, around: &[u32]) -> Begun<'a>
    ensures stays { IsUnbroken w.new.fault → IsUnbroken w.old.fault }
    ensures begun { (f : Found) (own : Bindings) → Reached w.old (record f { scopes = own ∷ f.scopes }) → Reached w.new (record f { functions = f.functions ++ unwritten ∷ []; declared = []; takes_arguments = false }) × Remembers result f own w.new.fault }
    ensures slots { IsUnbroken w.new.fault → result.slots ≡ length result.names.now ∷ around.now }
{
    let names = next_scope(w);
    let slots = with_scope(w, names.len(), around);
    let number = w.functions.len();
    let places = w.places;
    let names_arguments = w.names_arguments;
    w.names_arguments = false;
    let declared = without_declared(w);
    reserve(w);
    Begun {
        names,
        slots,
        number,
        places,
        declared,
        names_arguments,
    }
}

// The code of a function in scopes of so many slots.
fn function_code(
    alloc: Global,
    f: &FunctionTree,
    known: Known<'_>,
    functions: usize,
    slots: List<u32>,
) -> Result<FunctionCode, Fault>
    ensures { (around : Around) (first start : ℕ) → let body = (out-FunctionTree f.now).body in IsIn known.entry.names.now around → slots ≡ slots_of around → known.entry.places.now ≡ ((in_turn_uses body).means start).places around → functions ≡ first + 1 + (in_turn body).size → MatchResult result (λ code. code ≡ code_in f.now first (told_all known.entry.declared.now) known.entry.takes_arguments around) (λ fault. Refused fault (length (code_in f.now first (told_all known.entry.declared.now) known.entry.takes_arguments around).ops)) }
{
    let Ok(params) = u32::try_from(f.params.len()) else {
        return Err(Fault::NoMemory)
    };
    let Ok(behind) = u32::try_from(functions) else {
        return Err(Fault::NoMemory)
    };
    match function_ops(alloc, f, known, behind) {
        Err(fault) => Err(fault),
        Ok(ops) => Ok(FunctionCode {
            params,
            builds: true,
            slots,
            ops,
        }),
    }
}

// The code of a function takes its place.
fn put(w: &mut Walk<'_>, number: usize, code: FunctionCode)
    ensures stays { IsUnbroken w.new.fault → IsUnbroken w.old.fault }
    ensures same { Same w.old w.new }
    ensures put { (front behind : List SomeCode) → IsUnbroken w.old.fault → number ≡ length front → AreMade w.old.fault w.old (front ++ (unwritten ∷ behind)) → AreMade w.new.fault w.new (front ++ (code ∷ behind)) }
{
    let total = w.operations.saturating_add(code.ops.len());
    if total > MAX_OPS {
        w.fault = Some(Fault::TooLong);
    } else if number < w.functions.len() {
        w.functions.set(number, code);
        w.operations = total;
    } else {
        w.fault = Some(Fault::NoMemory);
    }
}

// What was made of a function takes its place, where nothing was refused before.
fn put_made(w: &mut Walk<'_>, number: usize, made: Result<FunctionCode, Fault>)
    ensures stays { IsUnbroken w.new.fault → IsUnbroken w.old.fault }
    ensures same { Same w.old w.new }
    ensures put { (front behind : List SomeCode) (code : SomeCode) → (IsUnbroken w.old.fault → (number ≡ length front) × MatchResult made (λ c. c ≡ code) (λ fault. Refused fault (length code.ops))) → AreMade w.old.fault w.old (front ++ (unwritten ∷ behind)) → AreMade w.new.fault w.new (front ++ (code ∷ behind)) }
{
    match w.fault {
        Some(_) => {}
        None => match made {
            Err(fault) => w.fault = Some(fault),
            Ok(code) => put(w, number, code),
        },
    }
}

// A function ends, and its code is made.
fn end_function(w: &mut Walk<'_>, f: &FunctionTree, begun: Begun<'_>)
    ensures stays { IsUnbroken w.new.fault → IsUnbroken w.old.fault }
    ensures ended { (b : Found) (own : Bindings) (around : Around) (start : ℕ) (nested : List SomeCode) (ds : List _) (takes : _) (scopes : List Bindings) (places : List SomePlace) → let body = (out-FunctionTree f.now).body in Remembers begun.entry b own w.old.fault → IsInside around → (IsUnbroken w.old.fault → begun.entry.slots ≡ slots_of (own ∷ around)) → length nested ≡ (in_turn body).size → b.places ≡ ((in_turn_uses body).means start).places (own ∷ around) ++ places → Reached w.old (found (b.functions ++ (unwritten ∷ nested)) ds takes scopes places) → Reached w.new (found (b.functions ++ (code_in f.now (length b.functions) ds takes (own ∷ around) ∷ nested)) b.declared b.takes_arguments scopes places) }
{
    let Begun {
        names,
        slots,
        number,
        places,
        declared,
        names_arguments,
    } = begun;
    let used = places.len().saturating_sub(w.places.len());
    let known = Known {
        names,
        declared: w.declared.as_slice(),
        takes_arguments: w.names_arguments,
        places: &places[..used],
    };
    let made = function_code(w.alloc, f, known, w.functions.len(), slots);
    put_made(w, number, made);
    w.declared = declared;
    w.names_arguments = names_arguments;
    w.crowded = either(w.crowded, names.len() > MAX_SLOTS);
}

// A function that is declared in the function around (ECMA-262 5.1 §10.5).
fn declare(w: &mut Walk<'_>, f: &FunctionTree)
    ensures stays { IsUnbroken w.new.fault → IsUnbroken w.old.fault }
    ensures declared { (g : Found) → let tree = out-FunctionTree f.now in Reached w.old g → Reached w.new (record g { declared = g.declared ++ declared_as (record { number = length g.functions; name = tree.name; params = length tree.params }) ∷ [] }) }
{
    match declaration(w.alloc, f, w.functions.len()) {
        Err(NoMemory) => refuse(w),
        Ok(declared) => {
            if w.declared.push(declared).is_err() {
                refuse(w);
            }
        }
    }
}

fn declaration(alloc: Global, f: &FunctionTree, number: usize) -> Result<Declaration, NoMemory>
    ensures { let tree = out-FunctionTree f.now in IfOk result (λ d. told d ≡ declared_as (record { number = number; name = tree.name; params = length tree.params })) }
{
    let Ok(number) = u32::try_from(number) else {
        return Err(NoMemory)
    };
    let Ok(params) = u32::try_from(f.params.len()) else {
        return Err(NoMemory)
    };
    let name = declared_name(alloc, &f.name)?;
    Ok(Declaration {
        name,
        number,
        params,
    })
}

// The name under which a function is declared.
fn declared_name(alloc: Global, name: &Option<Text>) -> Result<Text, NoMemory>
    ensures { IfOk result (λ text. text ≡ option_map_or (λ n. n) name.now []) }
{
    match name {
        None => Ok(Text::fixed("")),
        Some(name) => name.copy(alloc),
    }
}

/// The functions in an expression.
#[cycle(walk)]
pub fn in_expression(w: &mut Walk<'_>, e: &Expr, around: &[u32])
    ensures { Walked (code.expression e.now) (uses.expression e.now) around.now w.old w.new }
{
    match &e.node {
        ExprNode::Comma(a, b) => {
            in_expression(w, a.get(), around);
            in_expression(w, b.get(), around);
        }
        ExprNode::Assign(_, a, b) => {
            in_expression(w, a.get(), around);
            in_expression(w, b.get(), around);
        }
        ExprNode::Logical(_, a, b) => {
            in_expression(w, a.get(), around);
            in_expression(w, b.get(), around);
        }
        ExprNode::Binary(_, a, b) => {
            in_expression(w, a.get(), around);
            in_expression(w, b.get(), around);
        }
        ExprNode::Index(a, b) => {
            in_expression(w, a.get(), around);
            in_expression(w, b.get(), around);
        }
        ExprNode::Cond(a, b, c) => {
            in_expression(w, a.get(), around);
            in_expression(w, b.get(), around);
            in_expression(w, c.get(), around);
        }
        ExprNode::Unary(_, a) => in_expression(w, a.get(), around),
        ExprNode::Member(a, _) => in_expression(w, a.get(), around),
        ExprNode::Update { target: a, .. } => in_expression(w, a.get(), around),
        ExprNode::Call(callee, list) => {
            in_expression(w, callee.get(), around);
            in_expressions(w, list, around);
        }
        ExprNode::New(callee, list) => {
            in_expression(w, callee.get(), around);
            in_expressions(w, list, around);
        }
        ExprNode::Array(list) => in_elements(w, list, around),
        ExprNode::Object(list) => in_fields(w, list, around),
        ExprNode::Function(f) => in_function_expression(w, f, around),
        ExprNode::Name(name) => in_name(w, name),
        ExprNode::Num(_) => {}
        ExprNode::Str(_) => {}
        ExprNode::This => {}
        ExprNode::Null => {}
        ExprNode::Bool(_) => {}
    }
}

// A name as an expression.
fn in_name(w: &mut Walk<'_>, name: &Text)
    ensures { (around : List ℕ) → Walked (name_part name.now) (uses.name_part name.now) around w.old w.new }
{
    pass_name(w);
    w.names_arguments = either(w.names_arguments, *name == arguments());
}

#[cycle(walk)]
fn in_expressions(w: &mut Walk<'_>, list: &Items<Expr>, around: &[u32])
    ensures { Walked (each (map code.expression list.now)) (uses.all_of (map uses.expression list.now)) around.now w.old w.new }
{
    let list = list.as_slice();
    for i in 0..list.len() {
        in_expression(w, &list[i], around);
    }
}

#[cycle(walk)]
fn in_elements(w: &mut Walk<'_>, list: &Items<Option<Expr>>, around: &[u32])
    ensures { Walked (each_held (map (option_map code.expression) list.now)) (one (each_held (map (option_map uses.expression) list.now)) uses.all_held) around.now w.old w.new }
{
    let list = list.as_slice();
    for i in 0..list.len() {
        if let Some(e) = &list[i] {
            in_expression(w, e, around);
        }
    }
}

#[cycle(walk)]
fn in_fields(w: &mut Walk<'_>, list: &Items<(Text, Expr)>, around: &[u32])
    ensures { Walked (each_named (map (λ p. (p.0, code.expression p.1)) list.now)) (one (each_named (map (λ p. (p.0, uses.expression p.1)) list.now)) uses.all_named) around.now w.old w.new }
{
    let list = list.as_slice();
    for i in 0..list.len() {
        let field = &list[i];
        in_expression(w, &field.1, around);
    }
}

// An expression that may be missing.
#[cycle(walk)]
fn in_optional(w: &mut Walk<'_>, part: &Option<Expr>, around: &[u32])
    ensures { Walked (optional part.now) (optional_uses part.now) around.now w.old w.new }
{
    match part {
        None => {}
        Some(e) => in_expression(w, e, around),
    }
}

// What a `var` declares.
#[cycle(walk)]
fn in_variables(w: &mut Walk<'_>, list: &Items<(Text, Option<Expr>)>, around: &[u32])
    ensures { Walked (variables list.now) (variables_uses list.now) around.now w.old w.new }
{
    let list = list.as_slice();
    for i in 0..list.len() {
        let variable = &list[i];
        if let Some(e) = &variable.1 {
            in_variable(w, e, around);
        }
    }
}

// The value of a variable, of which its name is used.
#[cycle(walk)]
fn in_variable(w: &mut Walk<'_>, e: &Expr, around: &[u32])
    ensures { (name : List ℕ) → Walked (code.expression e.now) (one (uses.expression e.now) (λ u. uses.both (uses.use_of name) u)) around.now w.old w.new }
{
    pass_name(w);
    in_expression(w, e, around);
}

// A function as an expression; a name of its own stands in a scope around it (ECMA-262 5.1 §13).
#[cycle(walk)]
fn in_function_expression(w: &mut Walk<'_>, f: &FunctionTree, around: &[u32])
    ensures { Walked (function_expression (code.function f.now)) (one (uses.function f.now) uses.function_expression) around.now w.old w.new }
{
    match &f.name {
        None => in_function(w, f, around),
        Some(_) => {
            next_scope(w);
            let further = with_scope(w, 1, around);
            in_function(w, f, further.as_slice());
        }
    }
}

// A function, and the functions in it.
#[cycle(walk)]
fn in_function(w: &mut Walk<'_>, f: &FunctionTree, around: &[u32])
    ensures { Walked (code.function f.now) (one (uses.function f.now) uses.declared_function) around.now w.old w.new }
{
    let begun = begin_function(w, around);
    in_statements(w, &f.body, begun.slots.as_slice());
    end_function(w, f, begun);
}

/// The functions in statements.
#[cycle(walk)]
pub fn in_statements(w: &mut Walk<'_>, list: &Items<Stmt>, around: &[u32])
    ensures { Walked (in_turn list.now) (in_turn_uses list.now) around.now w.old w.new }
{
    let list = list.as_slice();
    for i in 0..list.len() {
        in_statement(w, &list[i], around);
    }
}

/// The functions in a statement.
#[cycle(walk)]
pub fn in_statement(w: &mut Walk<'_>, s: &Stmt, around: &[u32])
    ensures { Walked (code.statement s.now) (uses.statement s.now) around.now w.old w.new }
{
    match &s.node {
        StmtNode::Block(list) => in_statements(w, list, around),
        StmtNode::Var(list) => in_variables(w, list, around),
        StmtNode::Expr(a) => in_expression(w, a, around),
        StmtNode::Throw(a) => in_expression(w, a, around),
        StmtNode::If { test, then, other } => {
            in_expression(w, test, around);
            in_statement(w, then.get(), around);
            in_otherwise(w, other, around);
        }
        StmtNode::Do { body, test } => {
            in_statement(w, body.get(), around);
            in_expression(w, test, around);
        }
        StmtNode::While { test, body } => {
            in_expression(w, test, around);
            in_statement(w, body.get(), around);
        }
        StmtNode::For {
            first,
            test,
            update,
            body,
        } => {
            in_first(w, first, around);
            in_optional(w, test, around);
            in_optional(w, update, around);
            in_statement(w, body.get(), around);
        }
        StmtNode::ForIn { head, value, body } => {
            in_head(w, head, around);
            in_expression(w, value, around);
            in_statement(w, body.get(), around);
        }
        StmtNode::Return(value) => in_optional(w, value, around),
        StmtNode::Switch { value, cases } => {
            in_expression(w, value, around);
            in_cases(w, cases, around);
        }
        StmtNode::Try {
            body,
            caught,
            finally,
        } => {
            in_statements(w, body, around);
            match caught {
                None => match finally {
                    None => {}
                    Some(list) => in_statements(w, list, around),
                },
                Some((_, handler)) => {
                    in_caught(w, handler, around);
                    match finally {
                        None => {}
                        Some(list) => in_statements(w, list, around),
                    }
                }
            }
        }
        StmtNode::Label(_, body) => in_statement(w, body.get(), around),
        StmtNode::FunctionDecl(f) => in_declaration(w, f, around),
        StmtNode::Continue(_) => {}
        StmtNode::Break(_) => {}
        StmtNode::Empty => {}
    }
}

#[cycle(walk)]
fn in_otherwise(w: &mut Walk<'_>, part: &Option<Boxed<Stmt>>, around: &[u32])
    ensures { Walked (otherwise part.now) (otherwise_uses part.now) around.now w.old w.new }
{
    match part {
        None => {}
        Some(s) => in_statement(w, s.get(), around),
    }
}

#[cycle(walk)]
fn in_first(w: &mut Walk<'_>, part: &Option<ForFirst>, around: &[u32])
    ensures { Walked (first part.now) (first_uses part.now) around.now w.old w.new }
{
    match part {
        None => {}
        Some(ForFirst::Var(list)) => in_variables(w, list, around),
        Some(ForFirst::Expr(e)) => in_expression(w, e, around),
    }
}

#[cycle(walk)]
fn in_head(w: &mut Walk<'_>, part: &ForInHead, around: &[u32])
    ensures { Walked (code.head part.now) (uses.head part.now) around.now w.old w.new }
{
    match part {
        ForInHead::Var(_) => pass_name(w),
        ForInHead::Target(e) => in_expression(w, e, around),
    }
}

#[cycle(walk)]
fn in_cases(w: &mut Walk<'_>, list: &Items<Case>, around: &[u32])
    ensures { Walked (cases list.now) (cases_uses list.now) around.now w.old w.new }
{
    let list = list.as_slice();
    for i in 0..list.len() {
        in_case(w, &list[i], around);
    }
}

#[cycle(walk)]
fn in_case(w: &mut Walk<'_>, part: &Case, around: &[u32])
    ensures { Walked (code.branch part.now) (uses.branch part.now) around.now w.old w.new }
{
    in_optional(w, &part.test, around);
    in_statements(w, &part.body, around);
}

// The functions of a `catch` stand in a scope with its name (ECMA-262 5.1 §12.14), and those that it declares are none of the
// function around.
#[cycle(walk)]
fn in_caught(w: &mut Walk<'_>, handler: &Items<Stmt>, around: &[u32])
    ensures { (name : List ℕ) → Walked (caught (Some (name, handler.now))) (caught_uses (Some (name, handler.now))) around.now w.old w.new }
{
    next_scope(w);
    let further = with_scope(w, 1, around);
    let declared = without_declared(w);
    in_statements(w, handler, further.as_slice());
    w.declared = declared;
}

// The declaration of a function in another.
#[cycle(walk)]
fn in_declaration(w: &mut Walk<'_>, f: &FunctionTree, around: &[u32])
    ensures { Walked (declaration_part (code.function f.now)) (declaration_uses (uses.function f.now)) around.now w.old w.new }
{
    declare(w, f);
    in_function(w, f, around);
}
