// A record by its table and its number there, and the handles that become one.
#![tactic(auto)]

ghost use Rattle.std.specs.Prelude.{◌≡◌};
ghost use Rattle.model.specs.Tables.{code_t};
ghost use Rattle.base_handles.specs.Handles.{table_of, number_in};

use base_handles::{FunctionHandle, RecordHandle, TypeHandle};
use base_views::{FUNCTIONS, TYPES};

// A record: its table, and its number there. That the table is one of the six is a clause of the imports, since functions and entry points have tables past these, and a session
// looks up a function by a `Reference` too.
#[derive(Clone, Copy)]
pub struct Reference {
    pub table: usize,
    pub number: u32,
}

impl From<RecordHandle> for Reference {
    ghost from_gives = { λ h r. r ≡ record { table = code_t (table_of h); number = number_in h } };

    fn from(h: RecordHandle) -> Reference {
        Reference {
            table: h.section(),
            number: h.number(),
        }
    }
}

impl From<TypeHandle> for Reference {
    ghost from_gives = { λ h r. r ≡ record { table = 1; number = h.0 } };

    fn from(h: TypeHandle) -> Reference {
        Reference {
            table: TYPES,
            number: h.0,
        }
    }
}

impl From<FunctionHandle> for Reference {
    ghost from_gives = { λ h r. r ≡ record { table = 6; number = h.0 } };

    fn from(h: FunctionHandle) -> Reference {
        Reference {
            table: FUNCTIONS,
            number: h.0,
        }
    }
}
