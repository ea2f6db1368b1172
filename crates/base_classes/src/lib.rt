// The classes of words by name, as the tags have them and code compares them: the model's numbers, each written here once. What each class is, the
// model's field table says. They are numbers, since the tags lie in memory that C lends as bytes, and whatever those hold is no value of an enum.
#![tactic(auto)]

ghost use Rattle.std.specs.Prelude.{◌≡◌};
ghost use Rattle.base_classes.specs.Classes.{named};

// A class below WORD is a code below the class.
pub const WORD: u8 = 80;

pub const SPAN: u8 = 81;

pub const UPTO: u8 = 82;

pub const NAME: u8 = 83;

pub const TYPE: u8 = 84;

pub const OPT_TYPE: u8 = 85;

pub const CONSTANT: u8 = 86;

pub const OVERRIDE: u8 = 87;

pub const GLOBAL: u8 = 88;

pub const INIT: u8 = 89;

pub const OPT_INIT: u8 = 90;

pub const FUNCTION: u8 = 91;

pub const CALLEE: u8 = 92;

pub const EXPR: u8 = 93;

pub const OPT_EXPR: u8 = 94;

pub const ARGUMENT: u8 = 95;

pub const LOCAL: u8 = 96;

pub const FROM: u8 = 97;

pub const TO: u8 = 98;

pub const RESULT: u8 = 99;

pub const OPT_RESULT: u8 = 100;

pub const NAMED_EXPR: u8 = 101;

pub const LOCAL_INIT: u8 = 102;

pub const KEY: u8 = 103;

pub const PLACE: u8 = 104;

// Three classes, by how many bytes of a name's last word are used.
pub const PAD: u8 = 105;

pub const TEXT: u8 = 108;

pub const OPERANDS: u8 = 109;

pub const MEMBERS: u8 = 110;

pub const ARGUMENTS: u8 = 111;

pub const LOCALS: u8 = 112;

pub const EXPRESSIONS: u8 = 113;

pub const NAMED: u8 = 114;

pub const TYPE_KIND: u8 = 115;

pub const EXPR_KIND: u8 = 116;

pub const LEVEL: u8 = 117;

pub const QUERY: u8 = 118;

pub const VALUE: u8 = 119;

pub const ATOMIC: u8 = 120;

pub const RETURNS: u8 = 121;

pub const BLOCK: u8 = 122;

pub const CASES: u8 = 123;

pub const LENGTH: u8 = 124;

pub const STMT_KIND: u8 = 125;

// All of them, which are the model's.
pub fn all() -> [u8; 44]
    ensures { result ≡ named }
{
    [
        WORD,
        SPAN,
        UPTO,
        NAME,
        TYPE,
        OPT_TYPE,
        CONSTANT,
        OVERRIDE,
        GLOBAL,
        INIT,
        OPT_INIT,
        FUNCTION,
        CALLEE,
        EXPR,
        OPT_EXPR,
        ARGUMENT,
        LOCAL,
        FROM,
        TO,
        RESULT,
        OPT_RESULT,
        NAMED_EXPR,
        LOCAL_INIT,
        KEY,
        PLACE,
        PAD,
        TEXT,
        OPERANDS,
        MEMBERS,
        ARGUMENTS,
        LOCALS,
        EXPRESSIONS,
        NAMED,
        TYPE_KIND,
        EXPR_KIND,
        LEVEL,
        QUERY,
        VALUE,
        ATOMIC,
        RETURNS,
        BLOCK,
        CASES,
        LENGTH,
        STMT_KIND,
    ]
}
