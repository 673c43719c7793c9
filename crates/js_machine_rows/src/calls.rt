//! The row of calls.

ghost use Rattle.std.specs.Prelude.{◌≡◌, IfOk, List, ℕ, option_copied};
ghost use Rattle.js_heap.specs.World.{read_cell};
ghost use Rattle.js_semantics.specs.BuiltIns.{built_in_call, log, line_value};
ghost use Rattle.js_semantics.specs.State.{take_line};
ghost use Rattle.js_semantics.specs.Functions.{called_this, not_a_function, too_deep, entered, call_code, call_cell, call_value, call_row};
ghost use Rattle.js_machine_nodes.specs.Codes.{HasFunctions};
ghost use Rattle.js_machine_nodes.specs.Trees.{program_of};
ghost use Rattle.js_heap_memory.specs.Cells.{cell_at, name_text};
ghost use Rattle.js_machine_actions.specs.Flow.{Ends, Yields};
ghost use Rattle.js_machine_rows.specs.Codes.{code_at};
ghost use Rattle.js_machine_rows.specs.Calls.{called_of, callee_view, view_of, callee_called, entry_code, call_scope, entered_within, ActsOn, ActsIn, ActsOf, ActsAlways, ActsAnywhere, EntersBy};

use crate::answers::{replied, stopped};
use crate::codes::{CodePlace, function_at};
use crate::declared::with_functions;
use crate::entries::function_entry;
use js_heap::built_in::{BuiltIn, Code, ErrorClass};
use js_heap::cell::ScopeKind;
use js_heap::value::{Addr, Value};
use js_heap_memory::names::NameTable;
use js_heap_memory::slots::call_slots;
use js_heap_memory::stored::{FunctionName, Slots, Stored};
use js_heap_memory::world::World;
use js_machine_actions::action_end::ActionEnd;
use js_machine_actions::built_ins::{built_in_call, line_value};
use js_machine_actions::context::Context;
use js_machine_actions::errors::fail_with;
use js_machine_actions::frame::Frame;
use js_machine_actions::functions::{copy_of_name, new_scope};
use js_machine_actions::shown::logged;
use js_machine_engine::code::RunningCode;
use js_machine_engine::reduced::Reduced;
use js_machine_nodes::node::FunctionEntry;
use js_semantics::bounds::MOST_FRAMES;
use js_semantics::form::{Mark, Source};
use std::alloc::{AllocError, Global};

/// What a call needs of a function's cell.
#[derive(Drop)]
pub struct Callee {
    pub code: Code,
    pub name: FunctionName,
    pub outer: Option<Addr>,
    pub this: Value,
}

// ---- errors

/// The TypeError of a callee that is no function.
#[cold]
#[inline(never)]
fn not_a_function<W: World>(alloc: Global, world: &mut W, names: &NameTable) -> ActionEnd
    ensures { Ends not_a_function (W.world names.now world.old) result (W.world names.now world.new) }
{
    fail_with(
        alloc,
        world,
        names,
        ErrorClass::TypeError,
        b"Value is not a function",
    )
}

/// The RangeError of one frame too many.
#[cold]
#[inline(never)]
fn too_deep<W: World>(alloc: Global, world: &mut W, names: &NameTable) -> ActionEnd
    ensures { Ends too_deep (W.world names.now world.old) result (W.world names.now world.new) }
{
    fail_with(
        alloc,
        world,
        names,
        ErrorClass::RangeError,
        b"Maximum call stack size exceeded",
    )
}

// ---- functions of sources

/// A function of a source that is entered, with its `this` and its arguments.
#[derive(Drop)]
pub struct EnteredFunction<'a> {
    pub source: Source,
    pub function: Addr,
    pub name: FunctionName,
    pub outer: Addr,
    pub receiver: Value,
    pub arguments: &'a [Value],
}

/// The scope of a call, with the functions that the body declares (ECMA-262, 10.2.11).
fn call_scope<W: World>(
    code: &RunningCode<'_, '_>,
    world: &mut W,
    place: CodePlace,
    compiled: &FunctionEntry,
    callee: EnteredFunction<'_>,
) -> Result<Addr, ActionEnd>
    ensures { Yields (call_scope (entry_code code.now.names.now code.now.table.now place compiled.now) (name_text code.now.names.now callee.entry.name) callee.entry.outer callee.entry.arguments.now) (W.world code.now.names.now world.old) result (W.world code.now.names.now world.new) }
{
    let EnteredFunction {
        name,
        outer,
        arguments,
        ..
    } = callee;
    let slots = call_slots(
        code.alloc,
        compiled.parameters.as_slice(),
        arguments,
        compiled.names.slice(),
    )?;
    let own = new_scope(
        world,
        code.names,
        ScopeKind::Function,
        name,
        outer,
        Slots::from_vec(slots),
    )?;
    with_functions(code, world, own, place.first, place.end)?;
    Ok(own)
}

// ---- a callee's cell

/// What a call needs of a cell; none of a cell that is no function's.
fn callee_of(alloc: Global, cell: Option<&Stored>) -> Result<Option<Callee>, AllocError>
    ensures { IfOk result (λ c. (names : List (List ℕ)) → callee_view names c ≡ called_of (cell_at names (option_copied cell.entry))) }
{
    match cell {
        Some(Stored::Function(function)) => {
            let name = copy_of_name(alloc, &function.name)?;
            Ok(Some(Callee {
                code: function.code,
                name,
                outer: function.scope,
                this: function.this,
            }))
        }
        _ => Ok(None),
    }
}

// ---- entering

/// Enters the frame of a call to code with this node and body, whose scope and functions are made.
#[inline(always)]
fn enter_frame(context: &mut Context, node: u32, body: u32, own: Addr, frame: Frame) -> Reduced
    ensures { EntersBy node body own frame context.old result context.new }
{
    match context.push_frame(frame) {
        Ok(()) => Reduced::Enters {
            function: node,
            scope: own,
            body,
        },
        Err(_) => Reduced::Memory,
    }
}

/// Enters a function: its scope, the functions that it declares, then its frame (10.2.1).
fn enter<W: World>(
    code: &RunningCode<'_, '_>,
    context: &mut Context,
    world: &mut W,
    place: CodePlace,
    compiled: &FunctionEntry,
    callee: EnteredFunction<'_>,
) -> Reduced
    ensures { ActsAlways code.now.names.now code.now.table.now (λ s. entered (entry_code code.now.names.now code.now.table.now place compiled.now) callee.entry.source callee.entry.function (name_text code.now.names.now callee.entry.name) callee.entry.outer callee.entry.receiver callee.entry.arguments.now) (W.world code.now.names.now world.old) context.old result (W.world code.now.names.now world.new) context.new }
{
    let source = callee.source;
    let function = callee.function;
    let receiver = callee.receiver;
    match call_scope(code, world, place, compiled, callee) {
        Ok(own) => {
            let here = Mark::Start(compiled.node);
            let frame = Frame::new(Some(function), source, receiver, own, here);
            enter_frame(context, compiled.node, place.body, own, frame)
        }
        Err(stop) => stopped(stop),
    }
}

/// An arrow's `this` is the one that it was made with.
#[inline(always)]
fn called_this(is_arrow: bool, made: Value, given: Value) -> Value
    ensures { result ≡ called_this is_arrow made given }
{
    if is_arrow { made } else { given }
}

/// Calls a function of a source whose code is there; the limit of [`MOST_FRAMES`] frames comes before that of the world.
fn call_entry<W: World>(
    code: &RunningCode<'_, '_>,
    context: &mut Context,
    world: &mut W,
    place: CodePlace,
    compiled: &FunctionEntry,
    callee: EnteredFunction<'_>,
) -> Reduced
    ensures { ActsAlways code.now.names.now code.now.table.now (λ s. entered_within s (entry_code code.now.names.now code.now.table.now place compiled.now) callee.entry.source callee.entry.function (name_text code.now.names.now callee.entry.name) callee.entry.outer callee.entry.receiver callee.entry.arguments.now) (W.world code.now.names.now world.old) context.old result (W.world code.now.names.now world.new) context.new }
{
    if context.frame_count() < MOST_FRAMES {
        enter(code, context, world, place, compiled, callee)
    } else {
        stopped(too_deep(code.alloc, world, code.names))
    }
}

/// The `this` and the arguments that a call gives.
#[derive(Clone, Copy)]
pub struct GivenValues<'a> {
    pub receiver: Value,
    pub arguments: &'a [Value],
}

/// Calls a function of a source.
fn call_code<W: World>(
    code: &RunningCode<'_, '_>,
    context: &mut Context,
    world: &mut W,
    place: Option<CodePlace>,
    source: Source,
    function: Addr,
    callee: Callee,
    given: &GivenValues<'_>,
) -> Reduced
    ensures { ActsAlways code.now.names.now code.now.table.now (λ s. call_code s (code_at code.now.names.now code.now.table.now place) source function (name_text code.now.names.now callee.name) callee.outer callee.this given.now.receiver given.now.arguments.now) (W.world code.now.names.now world.old) context.old result (W.world code.now.names.now world.new) context.new }
{
    let Callee {
        name,
        outer,
        this,
        ..
    } = callee;
    match place {
        Some(place) => match function_entry(code.table, place.number) {
            Some(compiled) => match outer {
                Some(outer) => {
                    let receiver = called_this(compiled.is_arrow, this, given.receiver);
                    let entry = EnteredFunction {
                        source,
                        function,
                        name,
                        outer,
                        receiver,
                        arguments: given.arguments,
                    };
                    call_entry(code, context, world, place, compiled, entry)
                }
                None => stopped(not_a_function(code.alloc, world, code.names)),
            },
            None => stopped(not_a_function(code.alloc, world, code.names)),
        },
        None => stopped(not_a_function(code.alloc, world, code.names)),
    }
}

// ---- built-in functions

/// `console.log` prints its arguments.
fn log<W: World>(
    alloc: Global,
    names: &NameTable,
    context: &mut Context,
    world: &W,
    arguments: &[Value],
) -> Reduced
    ensures { ActsOn names.now arguments.now (λ s. log (W.world names.now world.now) arguments.now) (W.world names.now world.now) context.old result (W.world names.now world.now) context.new }
{
    match logged(alloc, world, names, arguments) {
        Ok(text) => match context.print(world, names, text) {
            Ok(()) => Reduced::Prints,
            Err(stop) => stopped(stop),
        },
        Err(_) => Reduced::Memory,
    }
}

/// `readline` takes the next line of the input.
fn read_line<W: World>(names: &NameTable, context: &mut Context, world: &mut W) -> Reduced
    ensures { ActsAnywhere names.now (λ s. take_line line_value) (W.world names.now world.old) context.old result (W.world names.now world.new) context.new }
{
    match context.take_line(world, names) {
        Ok(line) => replied(line_value(world, names, line)),
        Err(stop) => stopped(stop),
    }
}

/// Calls a built-in function.
fn call_built_in<W: World>(
    code: &RunningCode<'_, '_>,
    context: &mut Context,
    world: &mut W,
    f: BuiltIn,
    receiver: Value,
    arguments: &[Value],
) -> Reduced
    ensures { ActsOn code.now.names.now arguments.now (λ s. built_in_call (W.world code.now.names.now world.old) f receiver arguments.now) (W.world code.now.names.now world.old) context.old result (W.world code.now.names.now world.new) context.new }
{
    match f {
        BuiltIn::ConsoleLog => log(code.alloc, code.names, context, world, arguments),
        BuiltIn::ReadLine => read_line(code.names, context, world),
        _ => replied(built_in_call(code.alloc, world, code.names, f, receiver, arguments)),
    }
}

// ---- calls

/// Calls a function by what its cell says.
fn call_callee<W: World>(
    code: &RunningCode<'_, '_>,
    context: &mut Context,
    world: &mut W,
    function: Addr,
    callee: Callee,
    given: &GivenValues<'_>,
) -> Reduced
    requires { HasFunctions code.now.table.now }
    ensures { ActsIn code.now.names.now code.now.table.now given.now.arguments.now (λ s. callee_called (program_of code.now.names.now code.now.table.now) s function (view_of code.now.names.now callee) given.now.receiver given.now.arguments.now) (W.world code.now.names.now world.old) context.old result (W.world code.now.names.now world.new) context.new }
{
    match callee.code {
        Code::BuiltIn(f) => {
            call_built_in(code, context, world, f, given.receiver, given.arguments)
        }
        Code::Script { number, node } => {
            let source = Source::Script(number);
            let place = function_at(code.table, source, node);
            call_code(code, context, world, place, source, function, callee, given)
        }
        Code::Kept { at, node } => {
            let source = Source::Kept(at);
            let place = function_at(code.table, source, node);
            call_code(code, context, world, place, source, function, callee, given)
        }
    }
}

/// Calls the function at an address (10.2.1, 10.3.1).
fn call_at<W: World>(
    code: &RunningCode<'_, '_>,
    context: &mut Context,
    world: &mut W,
    function: Addr,
    given: &GivenValues<'_>,
) -> Reduced
    requires { HasFunctions code.now.table.now }
    ensures { ActsIn code.now.names.now code.now.table.now given.now.arguments.now (λ s. call_cell (program_of code.now.names.now code.now.table.now) s function (read_cell (W.world code.now.names.now world.old) function) given.now.receiver given.now.arguments.now) (W.world code.now.names.now world.old) context.old result (W.world code.now.names.now world.new) context.new }
{
    match callee_of(code.alloc, world.find(function)) {
        Ok(Some(callee)) => call_callee(code, context, world, function, callee, given),
        Ok(None) => stopped(not_a_function(code.alloc, world, code.names)),
        Err(_) => Reduced::Memory,
    }
}

/// Calls a value.
fn call_value<W: World>(
    code: &RunningCode<'_, '_>,
    context: &mut Context,
    world: &mut W,
    callee: Value,
    given: &GivenValues<'_>,
) -> Reduced
    requires { HasFunctions code.now.table.now }
    ensures { ActsIn code.now.names.now code.now.table.now given.now.arguments.now (λ s. call_value (program_of code.now.names.now code.now.table.now) s callee given.now.receiver given.now.arguments.now) (W.world code.now.names.now world.old) context.old result (W.world code.now.names.now world.new) context.new }
{
    match callee {
        Value::Object(a) => call_at(code, context, world, a, given),
        _ => stopped(not_a_function(code.alloc, world, code.names)),
    }
}

/// A call with its values: its `this`, its callee and its arguments (13.3.6). Its place is the frame's from now on, also where
/// it raises.
pub fn call<W: World>(
    code: &RunningCode<'_, '_>,
    context: &mut Context,
    world: &mut W,
    place: Mark,
    values: &[Value],
) -> Reduced
    requires { HasFunctions code.now.table.now }
    ensures { ActsOf code.now.names.now code.now.table.now values.now (λ s. call_row (program_of code.now.names.now code.now.table.now) s place values.now) (W.world code.now.names.now world.old) context.old result (W.world code.now.names.now world.new) context.new }
{
    match values {
        [receiver, callee, arguments @ ..] => {
            context.set_here(place);
            let given = GivenValues {
                receiver: *receiver,
                arguments,
            };
            call_value(code, context, world, *callee, &given)
        }
        _ => Reduced::Gives(Value::Undefined),
    }
}
