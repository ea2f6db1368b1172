// Handles of records: the record's number in its table, of a type of its own for each table, so that a number of one table is not taken for one of another. Names and entry points
// have none. A struct for each, and no `Handle<T>`: that would take six more types to tell the tables, and a field `PhantomData<T>` that each place which makes a handle has to
// give, as in `Handle(j, PhantomData)`.
#![tactic(auto)]

ghost use Rattle.std.specs.Prelude.{◌≡◌};
ghost use Rattle.model.specs.Tables.{code_t};
ghost use Rattle.base_handles.specs.Handles.{table_of, number_in};

use base_views::{CONSTANTS, EXPRESSIONS, GLOBALS, OVERRIDES, TYPES};

// A type.
#[derive(Clone, Copy)]
pub struct TypeHandle(pub u32);

// A constant.
#[derive(Clone, Copy)]
pub struct ConstantHandle(pub u32);

// A pipeline override.
#[derive(Clone, Copy)]
pub struct OverrideHandle(pub u32);

// A global variable.
#[derive(Clone, Copy)]
pub struct GlobalHandle(pub u32);

// An expression: of the module's own, or of a function.
#[derive(Clone, Copy)]
pub struct ExpressionHandle(pub u32);

// A function.
#[derive(Clone, Copy)]
pub struct FunctionHandle(pub u32);

// A record of one of the tables whose records a session imports one by one; its expressions are the module's own.
#[derive(Clone, Copy)]
pub enum RecordHandle {
    Type(TypeHandle),
    Constant(ConstantHandle),
    Override(OverrideHandle),
    Global(GlobalHandle),
    Expression(ExpressionHandle),
}

impl RecordHandle {
    // The number of the record in its table.
    pub fn number(self) -> u32
        ensures { result ≡ number_in self }
    {
        match self {
            RecordHandle::Type(t) => t.0,
            RecordHandle::Constant(c) => c.0,
            RecordHandle::Override(o) => o.0,
            RecordHandle::Global(g) => g.0,
            RecordHandle::Expression(e) => e.0,
        }
    }

    // The section of its table.
    pub fn section(self) -> usize
        ensures { result ≡ code_t (table_of self) }
    {
        match self {
            RecordHandle::Type(_) => TYPES,
            RecordHandle::Constant(_) => CONSTANTS,
            RecordHandle::Override(_) => OVERRIDES,
            RecordHandle::Global(_) => GLOBALS,
            RecordHandle::Expression(_) => EXPRESSIONS,
        }
    }
}
