// Objects and scopes, as a heap holds them.
ghost use Rattle.std.specs.Prelude.{◌≡◌, IfOk};

use njs_layer::Copied;
use njs_props::PropMap;
use njs_text::{List, NoMemory};
use njs_value::{Class, ObjId, Row, ScopeId, Value};
use std::alloc::Global;
use std::marker::Model;

/// What an object is beside its properties (the internal properties of ECMA-262 5.1 §8.6.2).
#[derive(Drop)]
pub enum Inner {
    /// Nothing more.
    Plain,
    /// A function of a script (§13.2): its module, its place in the module's code, and the scope it was made in.
    Script {
        module: u32,
        code: u32,
        scope: ScopeId,
    },
    /// A built-in function (§15), by its row in the table of built-in functions.
    BuiltIn(Row),
    /// A bound function (§15.3.4.5): what it calls, with which `this` and with which arguments first.
    Bound {
        target: ObjId,
        this: Value,
        args: List<Value>,
    },
    /// A dictionary, by the number of its zone.
    ZoneNumber(u32),
}

/// An object (ECMA-262 5.1 §8.6.2).
#[derive(Drop)]
pub struct Object {
    pub class: Class,
    pub prototype: Option<ObjId>,
    /// Whether new properties may be added.
    pub extensible: bool,
    pub props: PropMap<Value>,
    pub inner: Inner,
}

impl Model for Object {
    ghost use Rattle.njs_value.specs.Object.{Object as PlainObject};
    ghost use Rattle.njs_value.specs.declared.Value.{Value as ScriptValue};
    ghost use Rattle.njs_props.specs.declared.map.Property.{Property};
    ghost use Rattle.njs_shared.specs.declared.object.Inner.{Inner};

    ghost Value = { PlainObject (Property ScriptValue) Inner };

    ghost view = { λ o. record {
      class = o.class;
      prototype = o.prototype;
      extensible = o.extensible;
      props = o.props;
      inner = o.inner;
    } };
}

/// A scope (ECMA-262 5.1 §10.2): the scope around it, and the values of its names, each in its slot.
#[derive(Drop)]
pub struct Scope {
    pub parent: Option<ScopeId>,
    pub slots: List<Value>,
}

// An equal list.
fn copy_of_values(alloc: Global, values: &List<Value>) -> Result<List<Value>, NoMemory>
    ensures { IfOk result (λ copy. copy ≡ values.now) }
{
    Ok(List::from_vec(Vec::from_slice(alloc, values.as_slice())?))
}

impl Copied for Inner {
    fn copy(&self, alloc: Global) -> Result<Inner, NoMemory> {
        match self {
            Inner::Plain => Ok(Inner::Plain),
            Inner::Script {
                module,
                code,
                scope,
            } => Ok(Inner::Script {
                module: *module,
                code: *code,
                scope: *scope,
            }),
            Inner::BuiltIn(row) => Ok(Inner::BuiltIn(*row)),
            Inner::Bound { target, this, args } => Ok(Inner::Bound {
                target: *target,
                this: *this,
                args: copy_of_values(alloc, args)?,
            }),
            Inner::ZoneNumber(zone) => Ok(Inner::ZoneNumber(*zone)),
        }
    }
}

impl Copied for Object {
    fn copy(&self, alloc: Global) -> Result<Object, NoMemory> {
        Ok(Object {
            class: self.class,
            prototype: self.prototype,
            extensible: self.extensible,
            props: self.props.copy(alloc)?,
            inner: self.inner.copy(alloc)?,
        })
    }
}

impl Copied for Scope {
    fn copy(&self, alloc: Global) -> Result<Scope, NoMemory> {
        Ok(Scope {
            parent: self.parent,
            slots: copy_of_values(alloc, &self.slots)?,
        })
    }
}
