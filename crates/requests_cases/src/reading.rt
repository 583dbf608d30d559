// Lines as requests.
use cm_plain::Str;
use requests::{Declaration, Request};
use script::line_command;
use std::alloc::{AllocError, Global};

/// The request of a line, if it is not refused.
pub(crate) fn request(alloc: Global, line: &str) -> Option<Request> {
    line_command(alloc, line.as_bytes()).ok()
}

/// What a line declares, if it declares something.
pub(crate) fn declaration(alloc: Global, line: &str) -> Option<Declaration> {
    match request(alloc, line)? {
        Request::Declare(declaration) => Some(declaration),
        _ => None,
    }
}

/// Whether a text is this one.
pub(crate) fn is(text: &Str, want: &str) -> Result<bool, AllocError> {
    Ok(text.text()?.as_str() == want)
}

/// Whether these are the names.
pub(crate) fn are(names: &[Str], want: &[&str]) -> Result<bool, AllocError> {
    if names.len() != want.len() {
        return Ok(false);
    }
    for i in 0..names.len() {
        if !is(&names[i], want[i])? {
            return Ok(false);
        }
    }
    Ok(true)
}
