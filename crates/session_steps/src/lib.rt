// One step of a session: its four words, an operation and its numbers, to the operation itself, and what that answers: two values, or why it is refused. A refused
// step changes nothing.
#![tactic(auto)]

ghost use Rattle.std.specs.Prelude.{◌≡◌, ◌+◌, ◌-◌, min};
ghost use Rattle.session_steps.specs.Numbers.{Decodes};
ghost use Rattle.derive_finish.specs.Told.{refusal_of};
ghost use Rattle.session_operations.specs.Answers.{value_in};
ghost use Rattle.session_operations.specs.Sessions.{Valid, SameMemory, meant};
ghost use Rattle.session_steps.specs.Stepped.{saying, shown, Performs, Quiet, Wrote};

use base_handles::{
    ConstantHandle, ExpressionHandle, FunctionHandle, GlobalHandle, OverrideHandle, RecordHandle,
    TypeHandle,
};
use base_refusals::Refusal;
use session_functions::{finish_with_entries, import_function, map_function_handle};
use session_operations::{
    Session, finish_plain, has_required_special_types, import, map_span, rename_type,
    set_shader_source,
};

// The operations of a session.
#[derive(Clone, Copy, Debug, PartialEq, Eq)]
pub enum Operation {
    Set,
    Clear,
    MapSpan,
    ImportType,
    RenameType,
    ImportConst,
    ImportPipelineOverride,
    ImportGlobal,
    ImportGlobalExpression,
    ImportFunction,
    ImportFunctionIfNew,
    MapFunctionHandle,
    HasRequiredSpecialTypes,
    Finish,
    FinishWithEntryPoints,
}

// An operation by its number, as include/wuldgisp.h lists them.
impl TryFrom<u32> for Operation {
    type Error = Refusal;

    ghost try_from_gives = { Decodes };

    fn try_from(number: u32) -> Result<Self, Refusal> {
        match number {
            0 => Ok(Operation::Set),
            1 => Ok(Operation::Clear),
            2 => Ok(Operation::MapSpan),
            3 => Ok(Operation::ImportType),
            4 => Ok(Operation::RenameType),
            5 => Ok(Operation::ImportConst),
            6 => Ok(Operation::ImportPipelineOverride),
            7 => Ok(Operation::ImportGlobal),
            8 => Ok(Operation::ImportGlobalExpression),
            9 => Ok(Operation::ImportFunction),
            10 => Ok(Operation::ImportFunctionIfNew),
            11 => Ok(Operation::MapFunctionHandle),
            12 => Ok(Operation::HasRequiredSpecialTypes),
            13 => Ok(Operation::Finish),
            14 => Ok(Operation::FinishWithEntryPoints),
            _ => Err(Refusal::NumberGiven),
        }
    }
}

// A step: an operation and its numbers.
#[derive(Clone, Copy)]
pub struct Step {
    pub operation: u32,
    pub a: u32,
    pub b: u32,
    pub c: u32,
}

// The part of len bytes that a step's numbers a and b give, cut at the end: where it begins and where it ends.
fn part(step: Step, len: usize) -> (usize, usize)
    ensures { (result.0 ≡ min step.a len) × (result.1 ≡ result.0 + min step.b (len - result.0)) }
{
    let from = (step.a as usize).min(len);
    (from, from + (step.b as usize).min(len - from))
}

// A source from a part of the sources.
fn set_step(session: &mut Session, sources: &[u8], step: Step) -> Result<(u32, u32), Refusal>
    requires { Valid session.old }
    ensures quiet { Quiet 0 step.a step.b step.c sources.now (meant session.old) (shown result) (meant session.new) }
    ensures valid { Valid session.new }
    ensures same { SameMemory session.old session.new }
{
    let (from, to) = part(step, sources.len());
    set_shader_source(session, &sources[from..to], step.c)?;
    Ok((0, 0))
}

// A finish without entry points into a part of the output. A twin of entries_step: one function for both would take the finish as a closure, whose contract would
// say again what each of the two finishes promises of session and output.
fn plain_step(session: &mut Session, output: &mut [u8], step: Step) -> Result<(u32, u32), Refusal>
    requires { Valid session.old }
    ensures wrote { Wrote 13 step.a step.b step.c (meant session.old) (shown result) output.old output.new (meant session.new) }
    ensures valid { Valid session.new }
    ensures same { SameMemory session.old session.new }
{
    let (from, to) = part(step, output.len());
    let bytes = finish_plain(session, &mut output[from..to])?;
    Ok((bytes as u32, 0))
}

// A finish with the source's entry points into a part of the output.
fn entries_step(session: &mut Session, output: &mut [u8], step: Step) -> Result<(u32, u32), Refusal>
    requires { Valid session.old }
    ensures wrote { Wrote 14 step.a step.b step.c (meant session.old) (shown result) output.old output.new (meant session.new) }
    ensures valid { Valid session.new }
    ensures same { SameMemory session.old session.new }
{
    let (from, to) = part(step, output.len());
    let bytes = finish_with_entries(session, &mut output[from..to])?;
    Ok((bytes as u32, 0))
}

// What an import answers: the number of what was imported.
fn imported(said: Result<u32, Refusal>) -> Result<(u32, u32), Refusal>
    ensures { shown result ≡ record { refusal = refusal_of said; first = value_in said; second = 0 } }
{
    Ok((said?, 0))
}

// One step of a session: the two values that its operation answers, 0 where it has none.
pub fn perform(
    session: &mut Session,
    sources: &[u8],
    output: &mut [u8],
    step: Step,
) -> Result<(u32, u32), Refusal>
    requires { Valid session.old }
    ensures { Performs (saying step.operation step.a step.b step.c sources.now output.old (meant session.old)) session.old (shown result) output.old output.new session.new }
{
    match Operation::try_from(step.operation)? {
        Operation::Set => set_step(session, sources, step),
        Operation::Clear => {
            session.source = None;
            Ok((0, 0))
        }
        Operation::MapSpan => {
            let span = map_span(session.source, step.a, step.b)?;
            Ok((span.start, span.end))
        }
        Operation::HasRequiredSpecialTypes => {
            let held = has_required_special_types(session.special, session.sizes);
            Ok((u32::from(held), 0))
        }
        Operation::Finish => plain_step(session, output, step),
        Operation::FinishWithEntryPoints => entries_step(session, output, step),
        Operation::ImportType => {
            let handle = RecordHandle::Type(TypeHandle(step.a));
            imported(import(session, handle))
        }
        Operation::RenameType => { imported(rename_type(session, TypeHandle(step.a), step.b)) },
        Operation::ImportConst => {
            let handle = RecordHandle::Constant(ConstantHandle(step.a));
            imported(import(session, handle))
        }
        Operation::ImportPipelineOverride => {
            let handle = RecordHandle::Override(OverrideHandle(step.a));
            imported(import(session, handle))
        }
        Operation::ImportGlobal => {
            let handle = RecordHandle::Global(GlobalHandle(step.a));
            imported(import(session, handle))
        }
        Operation::ImportGlobalExpression => {
            let handle = RecordHandle::Expression(ExpressionHandle(step.a));
            imported(import(session, handle))
        }
        Operation::ImportFunction => imported(import_function(session, FunctionHandle(step.a))),
        Operation::ImportFunctionIfNew | Operation::MapFunctionHandle => {
            imported(map_function_handle(session, FunctionHandle(step.a)))
        }
    }
}
