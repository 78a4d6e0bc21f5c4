use report_reading::read_report;
use std::alloc::Global;
use std::test::Fail;
use trop_text::{Fault, TextErr};

// The first fault of a report, or none where it is read.
pub(super) fn read(alloc: Global, text: &[u8]) -> Result<Option<Fault>, Fail> {
    if text.len() > 1_000_000 {
        return Ok(Some(Fault::WrongKind { line: 0 }));
    }
    match read_report(alloc, text) {
        Ok(_) => Ok(None),
        Err(TextErr::Fault(fault)) => Ok(Some(fault)),
        Err(TextErr::NoMemory) => Ok(Some(Fault::WrongKind { line: 1 })),
    }
}
