//! What a world holds at an address, as contracts say it, and the lists that it is made of.

ghost use Rattle.std.specs.Prelude.{◌≡◌, ◌≤◌, [], length, take, OnOk, OnErr};
ghost use Rattle.js_heap.specs.Cells.{with_element};

use crate::built_in::{Code, ErrorClass};
use crate::value::{Addr, Value};
use cdp_text::units::Units;
use std::alloc::{AllocError, Global};
use std::marker::Model;

/// Values in order. Contracts see their list.
#[derive(Drop)]
pub struct Values {
    items: Vec<Value>,
}

impl Model for Values {
    ghost use Rattle.std.specs.Prelude.{List};
    ghost use Rattle.js_heap.specs.declared.value.Value.{Value as AnyValue};

    ghost Value = { List AnyValue };

    ghost view = { λ values. values.items.items };
}

impl Values {
    /// The values in the memory of the vector.
    pub fn from_vec(items: Vec<Value>) -> Values
        ensures { result ≡ items.items }
    {
        Values { items }
    }

    /// The values.
    pub fn slice(&self) -> &[Value]
        ensures { result.now ≡ self.now }
    {
        self.items.as_slice()
    }

    /// The element at an index up to the length; at the length it is one more (10.4.2.1).
    pub fn put(&mut self, index: u32, value: Value) -> Result<(), AllocError>
        ensures value { OnOk result (self.new ≡ with_element self.old index value) }
        ensures kept { OnErr result (self.new ≡ self.old) }
    {
        let at = index as usize;
        if at < self.items.len() {
            self.items[at] = value;
        } else {
            self.items.push(value)?;
        }
        Ok(())
    }

    /// A length up to the present one (10.4.2.4).
    pub fn cut(&mut self, len: u32)
        requires { len ≤ length self.old }
        ensures { self.new ≡ take len self.old }
    {
        self.items.truncate(len as usize);
    }
}

/// An own property (ECMA-262, 6.1.7.1).
#[derive(Drop)]
pub struct Property {
    pub key: Units,
    pub value: Value,
    pub writable: bool,
    pub enumerable: bool,
    pub configurable: bool,
}

/// The own properties of an object in order (ECMA-262, 10.1.11), in contracts: their list.
#[derive(Drop)]
pub struct Properties {
    items: Vec<Property>,
}

impl Model for Properties {
    ghost use Rattle.std.specs.Prelude.{List};
    ghost use Rattle.js_heap.specs.declared.cell.Property.{Property};
    ghost use Rattle.js_heap.specs.contracts.cell.Property as property;

    ghost Value = { List Property };

    ghost view = { λ properties. properties.items.items };
}

/// A name of a scope, with its value once it is initialised (ECMA-262, 9.1.1.1).
#[derive(Drop)]
pub struct Binding {
    pub name: Units,
    pub constant: bool,
    pub value: Option<Value>,
}

/// The names of a scope in order. Contracts see their list.
#[derive(Drop)]
pub struct ScopeNames {
    items: Vec<Binding>,
}

impl Model for ScopeNames {
    ghost use Rattle.std.specs.Prelude.{List};
    ghost use Rattle.js_heap.specs.declared.cell.Binding.{Binding};

    ghost Value = { List Binding };

    ghost view = { λ names. names.items.items };
}

impl ScopeNames {
    /// No name.
    pub fn new(alloc: Global) -> ScopeNames
        ensures { result ≡ [] }
    {
        ScopeNames {
            items: Vec::new(alloc),
        }
    }

    /// The names in the memory of the vector, in its order.
    pub fn from_vec(items: Vec<Binding>) -> ScopeNames
        ensures { result ≡ items.items }
    {
        ScopeNames { items }
    }

    /// The bindings.
    pub fn slice(&self) -> &[Binding]
        ensures { result.now ≡ self.now }
    {
        self.items.as_slice()
    }
}

/// What made a scope.
#[derive(Clone, Copy)]
pub enum ScopeKind {
    /// A block or a loop (ECMA-262, 14.2, 14.7).
    Block,
    /// A `catch` with a name (14.15).
    Catch,
    /// A call of a function (10.2.11).
    Function,
    /// The name of a function expression (15.2.5).
    Named,
    /// The scripts (16.1).
    Script,
    /// The global scope.
    Global,
}

/// What is at an address, in contracts. A running program keeps each cell in a form that is fast to reach.
#[derive(Drop)]
pub enum Cell {
    Object {
        properties: Properties,
    },
    Error {
        class: ErrorClass,
        properties: Properties,
    },
    Array {
        elements: Values,
    },
    Text {
        units: Units,
    },
    /// `this` is the enclosing one of an arrow function, else undefined.
    Function {
        code: Code,
        name: Units,
        length: u32,
        scope: Option<Addr>,
        this: Value,
    },
    /// A scope; `name` is the function's, where it has one.
    Bindings {
        kind: ScopeKind,
        name: Units,
        outer: Option<Addr>,
        names: ScopeNames,
    },
}
