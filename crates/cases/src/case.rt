//! A script beside the lines that a program must tell of it.
use std::alloc::{AllocError, Global};

#[derive(Clone, Copy)]
pub(crate) struct Case<'a> {
    pub(crate) script: &'a [u8],
    pub(crate) lines: &'a [u8],
}

// The place of the first case of which the program tells other lines.
pub(crate) fn first_wrong<F>(
    heap: Global,
    program: F,
    cases: &[Case<'_>],
) -> Result<Option<usize>, AllocError>
where
    F: Fn(Global, &[u8]) -> Result<Vec<u8>, AllocError>,
    requires { F.IsAlwaysCallable program }
{
    for (i, case) in cases.iter().enumerate() {
        let text = program(heap, case.script)?;
        if text.as_slice() != case.lines {
            return Ok(Some(i));
        }
    }
    Ok(None)
}

// A script of so many blanks. A function of its own, so that no proof counts to a million.
pub(crate) fn blanks(heap: Global, times: usize) -> Result<Vec<u8>, AllocError> {
    b" ".repeat(heap, times)
}
