use prog_graph::{Graph, build};
use prog_lang::{AssertRule, read_program, read_trace_file};
use std::alloc::Global;
use std::test::Fail;
use trop_text::{Fault, TextErr};

// The first fault of a program, or none where it is read.
pub(super) fn read_under(
    alloc: Global,
    text: &[u8],
    rule: AssertRule,
) -> Result<Option<Fault>, Fail> {
    if text.len() > 100_000 {
        return Ok(Some(Fault::TooManyLines { line: 0 }));
    }
    match read_program(alloc, text, rule) {
        Ok(_) => Ok(None),
        Err(TextErr::Fault(fault)) => Ok(Some(fault)),
        Err(TextErr::NoMemory) => Ok(Some(Fault::TooManyLines { line: 1 })),
    }
}

// The first fault of a trace file, or none where it is read.
pub(super) fn read_trace(alloc: Global, text: &[u8]) -> Result<Option<Fault>, Fail> {
    if text.len() > 100_000 {
        return Ok(Some(Fault::TooManyLines { line: 0 }));
    }
    match read_trace_file(alloc, text) {
        Ok(_) => Ok(None),
        Err(TextErr::Fault(fault)) => Ok(Some(fault)),
        Err(TextErr::NoMemory) => Ok(Some(Fault::TooManyLines { line: 1 })),
    }
}

// The control graph of a program; none where the text is none.
pub(super) fn graph_of(alloc: Global, text: &[u8]) -> Result<Option<Graph>, Fail> {
    if text.len() > 100_000 {
        return Ok(None);
    }
    match read_program(alloc, text, AssertRule::Any) {
        Ok(program) => Ok(Some(build(alloc, &program)?)),
        Err(_) => Ok(None),
    }
}
