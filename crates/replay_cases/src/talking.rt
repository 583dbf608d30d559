// Scripts, each line with its reply.
use crate::replaying::replies;
use std::alloc::{AllocError, Global};

/// The reply to a declaration that was made.
pub(crate) const DONE: &str = r#"{"ok":{}}"#;

fn add_line(bytes: &mut Vec<u8>, line: &str) -> Result<(), AllocError> {
    bytes.extend_from_slice(line.as_bytes())?;
    bytes.push(b'\n')?;
    Ok(())
}

/// Whether these lines, each one declaring something, are answered by `DONE`, and the lines after them as they say.
pub(crate) fn talks(
    alloc: Global,
    declarations: &[&str],
    lines: &[(&str, &str)],
) -> Result<bool, AllocError> {
    let mut input = Vec::new(alloc);
    let mut want = Vec::new(alloc);
    for line in declarations {
        add_line(&mut input, line)?;
        add_line(&mut want, DONE)?;
    }
    for (line, reply) in lines {
        add_line(&mut input, line)?;
        add_line(&mut want, reply)?;
    }
    replies(alloc, input.as_slice(), want.as_slice())
}
