// The kinds of expressions and statements by name, those that code compares, and which kinds of expressions are standing,
// which are emitted and which are allowed outside functions. They are numbers, as the words of an image are: each is compared in a place or two, and to read
// an enum of it would add a case, a word that is no kind, which intake has ruled out.
#![tactic(auto)]

ghost use Rattle.std.specs.Prelude.{◌≡◌};
ghost use Rattle.model.specs.Operands.{standing_kind, emitted_kind, constant_kind};

// Expressions.
pub const ZERO_VALUE: u32 = 3;

pub const SWIZZLE: u32 = 8;

pub const FUNCTION_ARGUMENT: u32 = 9;

pub const LOCAL_VARIABLE: u32 = 11;

pub const UNARY: u32 = 16;

pub const SELECT: u32 = 18;

pub const RELATIONAL: u32 = 20;

pub const AS: u32 = 22;

pub const CALL_RESULT: u32 = 23;

pub const ATOMIC_RESULT: u32 = 24;

pub const WORK_GROUP_UNIFORM_LOAD_RESULT: u32 = 25;

// Statements.
pub const EMIT: u32 = 0;

pub const SWITCH: u32 = 3;

pub const LOOP: u32 = 4;

pub const BREAK: u32 = 5;

pub const CONTINUE: u32 = 6;

pub const RETURN: u32 = 7;

pub const ATOMIC: u32 = 13;

pub const WORK_GROUP_UNIFORM_LOAD: u32 = 14;

pub const CALL: u32 = 15;

pub const IMAGE_ATOMIC: u32 = 16;

// Whether a kind stands without an emit: 0 to 3 and 9 to 11.
#[tactic(auto, unfolding(model::specs::Operands::standing_kind))]
pub fn stands(k: u32) -> bool
    ensures { result ≡ standing_kind k }
{
    matches!(k, 0..=ZERO_VALUE | FUNCTION_ARGUMENT..=LOCAL_VARIABLE)
}

// Whether a kind is emitted: all but the standing ones and the results, 23 to 25.
#[tactic(auto, unfolding(model::specs::Operands::emitted_kind, model::specs::Operands::result_kind))]
pub fn emits(k: u32) -> bool
    ensures { result ≡ emitted_kind k }
{
    !stands(k) && !matches!(k, CALL_RESULT..=WORK_GROUP_UNIFORM_LOAD_RESULT)
}

// Whether a kind may stand outside functions: 0 to 8, 16 to 18 and 20 to 22.
#[tactic(auto, unfolding(model::specs::Operands::constant_kind))]
pub fn constant(k: u32) -> bool
    ensures { result ≡ constant_kind k }
{
    matches!(k, 0..=SWIZZLE | UNARY..=SELECT | RELATIONAL..=AS)
}
