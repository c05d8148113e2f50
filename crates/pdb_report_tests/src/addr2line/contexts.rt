//! Calls of contexts that were asked before, and copies of their answers.

use crate::addr2line::files::{Data, data_of};
use pdb_addr2line::pdb::Error as Cause;
use pdb_addr2line::{Context, Error, Function, KeptModules, ModuleProvider};
use pdb_samples::{cross_imports, imports_of_no_stream, short_line_block};
use std::alloc::Global;
use std::test::Fail;

/// A question to a context.
#[derive(Clone, Copy)]
enum Question {
    /// The first function, and after the list of all is dropped the function at 0x1014, each as its
    /// copy.
    Functions,
    /// The frames at 0x1014 with shared names, which may go to another thread.
    SharedFrames,
    /// The frames at 0x1014, whose lines can't be read, twice.
    FailedLines,
    /// The modules at 0x103f, 0x1040 and 0x1080; and those from 0x103f to before 0x1081, and from
    /// 0x1040 to before 0x1080.
    Modules,
}

/// The frames at 0x1014 of [`cross_imports`].
const FRAMES: &str = "SharedFunctionFrames { start_rva: 4112, end_rva: Some(4144), frames: [\
    SharedFrame { function: Some(\"g()\"), file: Some(\"b.h\"), line: Some(3), \
    row: Some(FrameRow { start_rva: 4112, length: Some(8) }) }, \
    SharedFrame { function: Some(\"f\"), file: Some(\"a.c\"), line: Some(5), \
    row: Some(FrameRow { start_rva: 4112, length: Some(8) }) }] }";

/// Returns the text of a function's copy.
fn told_function(alloc: Global, function: &Function) -> Result<String, Error> {
    let copy = function.try_clone(alloc)?;
    Ok(format!(in alloc; "{copy:?}")?)
}

/// Returns the first function of a context, as its copy.
fn first_function<P: ModuleProvider>(
    alloc: Global,
    context: &mut Context<'_, '_, P>,
) -> Result<String, Error> {
    match context.functions(alloc)?.next() {
        None => Ok(String::new(alloc)),
        Some(Ok(function)) => told_function(alloc, &function),
        Some(Err(fault)) => Err(fault),
    }
}

/// Returns the function that a context finds at 0x1014, as its copy.
fn function_by<P: ModuleProvider>(
    alloc: Global,
    context: &mut Context<'_, '_, P>,
) -> Result<String, Error> {
    match context.find_function(alloc, 0x1014) {
        Ok(Some(function)) => told_function(alloc, &function),
        Ok(None) => Ok(String::new(alloc)),
        Err(fault) => Err(fault),
    }
}

/// Returns the first function of a context, and after the list of all is dropped the function at
/// 0x1014.
fn functions_by<P: ModuleProvider>(
    alloc: Global,
    context: &mut Context<'_, '_, P>,
) -> Result<String, Error> {
    let first = first_function(alloc, context)?;
    let second = function_by(alloc, context)?;
    Ok(format!(in alloc; "{first}; {second}")?)
}

/// Takes a value that may go to another thread.
fn takes_sendable<T: Send>(_value: &T) {}

/// Returns the frames with shared names that a context finds at 0x1014. They may go to another
/// thread.
fn shared_frames_by<P: ModuleProvider>(
    alloc: Global,
    context: &mut Context<'_, '_, P>,
) -> Result<String, Error> {
    match context.find_shared_frames(alloc, 0x1014)? {
        Some(found) => {
            takes_sendable(&found);
            Ok(format!(in alloc; "{found:?}")?)
        }
        None => Ok(String::new(alloc)),
    }
}

/// Returns the report of lines that can't be read: their own fault, or that they stand as failed.
fn lines_fault<P: ModuleProvider>(alloc: Global, context: &mut Context<'_, '_, P>) -> &'static str {
    match context.find_frames(alloc, 0x1014) {
        Err(Error::PdbError(Cause::UnexpectedEof)) => "their own",
        Err(Error::ProcedureLinesUnsuccessful) => "as failed",
        _ => "another",
    }
}

/// Returns the report of lines that can't be read, for each of two questions.
fn lines_faults<P: ModuleProvider>(
    alloc: Global,
    context: &mut Context<'_, '_, P>,
) -> Result<String, Error> {
    let first = lines_fault(alloc, context);
    let second = lines_fault(alloc, context);
    Ok(format!(in alloc; "{first}, {second}")?)
}

/// Returns the modules that hold addresses and ranges.
fn modules_by<P: ModuleProvider>(
    alloc: Global,
    context: &Context<'_, '_, P>,
) -> Result<String, Error> {
    let first = context.module_at(0x103f);
    let none = context.module_at(0x1040);
    let second = context.module_at(0x1080);
    let both = context.modules_between(alloc, 0x103f, 0x1081)?;
    let neither = context.modules_between(alloc, 0x1040, 0x1080)?;
    Ok(format!(in alloc; "{first:?} {none:?} {second:?} {both:?} {neither:?}")?)
}

/// Asks a context a question.
fn asked<P: ModuleProvider>(
    alloc: Global,
    mut context: Context<'_, '_, P>,
    question: Question,
) -> Result<String, Error> {
    match question {
        Question::Functions => functions_by(alloc, &mut context),
        Question::SharedFrames => shared_frames_by(alloc, &mut context),
        Question::FailedLines => lines_faults(alloc, &mut context),
        Question::Modules => modules_by(alloc, &context),
    }
}

/// Makes a context over what was read, if the address map is in order.
fn context_of(
    alloc: Global,
    data: &Data,
) -> Result<Context<'_, 'static, KeptModules<'static>>, Error> {
    if !data.address_map().is_ordered() {
        return Err(Error::CircularTypeDefinition(0));
    }
    data.make_context(alloc)
}

/// Asks a context over what was read a question.
fn asked_over(alloc: Global, data: &Data, question: Question) -> Result<String, Error> {
    let context = context_of(alloc, data)?;
    takes_sendable(&context);
    asked(alloc, context, question)
}

/// Asks a context over a file's bytes a question.
fn answer(alloc: Global, bytes: Vec<u8>, question: Question) -> Result<String, Error> {
    let data = data_of(alloc, bytes)?;
    asked_over(alloc, &data, question)
}

/// Makes a context over the tables of one file, from the parts of another context, and the modules
/// of another file.
fn context_over<'a>(
    alloc: Global,
    data: &'a Data,
    modules: &'a KeptModules<'static>,
) -> Result<Context<'a, 'static, KeptModules<'static>>, Error> {
    if !data.address_map().is_ordered() {
        return Err(Error::CircularTypeDefinition(0));
    }
    let context = data.make_context(alloc)?;
    let parts = context.into_parts();
    data.make_context_over(alloc, modules, parts)
}

/// Asks a context over the tables of one file and the modules of another a question.
fn answer_over(
    alloc: Global,
    tables: Vec<u8>,
    modules: Vec<u8>,
    question: Question,
) -> Result<String, Error> {
    let data = data_of(alloc, tables)?;
    let other = data_of(alloc, modules)?;
    let context = context_over(alloc, &data, other.modules())?;
    asked(alloc, context, question)
}

#[test]
fn functions_and_then_one(rt: HostRuntime) -> Result<(), Fail> {
    let text = answer(rt.alloc(), cross_imports(rt.alloc())?, Question::Functions)?;
    assert_eq!(rt;
        text.as_str(),
        "Function { start_rva: 4112, end_rva: Some(4144), name: Some(\"f\") }; \
        Function { start_rva: 4112, end_rva: Some(4144), name: Some(\"f\") }"
    );
    Ok(())
}

#[test]
fn frames_with_shared_names(rt: HostRuntime) -> Result<(), Fail> {
    let text = answer(
        rt.alloc(),
        cross_imports(rt.alloc())?,
        Question::SharedFrames,
    )?;
    assert_eq!(rt; text.as_str(), FRAMES);
    Ok(())
}

// Lines that can't be read are reported by their own fault, and as failed from the second time on.
#[test]
fn lines_that_failed_before(rt: HostRuntime) -> Result<(), Fail> {
    let text = answer(
        rt.alloc(),
        short_line_block(rt.alloc())?,
        Question::FailedLines,
    )?;
    assert_eq!(rt; text.as_str(), "their own, as failed");
    Ok(())
}

// The inlined call has a name where the third module has a stream, whatever was read before.
#[test]
fn frames_by_other_modules(rt: HostRuntime) -> Result<(), Fail> {
    let text = answer_over(
        rt.alloc(),
        imports_of_no_stream(rt.alloc())?,
        cross_imports(rt.alloc())?,
        Question::SharedFrames,
    )?;
    assert_eq!(rt; text.as_str(), FRAMES);
    Ok(())
}

#[test]
fn modules_that_hold_addresses(rt: HostRuntime) -> Result<(), Fail> {
    let text = answer(rt.alloc(), cross_imports(rt.alloc())?, Question::Modules)?;
    assert_eq!(rt; text.as_str(), "Some(0) None Some(1) [0, 1] []");
    Ok(())
}
