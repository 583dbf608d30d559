// Refusals of files and of a window's size.
ghost use Rattle.std.specs.Prelude.{◌≡◌, IfOk};
ghost use Rattle.serde_json.specs.View.{view};
ghost use Rattle.replies.specs.Refusals.{file_data, window_data};

use crate::coded::{coded_number, coded_text};
use script::{FileRefusal, WindowRefusal};
use serde_json::Value;
use std::alloc::{AllocError, Global};

pub(crate) fn file_value(alloc: Global, refusal: &FileRefusal) -> Result<Value, AllocError>
    ensures { IfOk result (λ v. view v ≡ file_data refusal.now) }
{
    match refusal {
        FileRefusal::FileMissing { name } => coded_text(alloc, "FileMissing", "name", name),
        FileRefusal::FileNotUtf8 { name } => coded_text(alloc, "FileNotUtf8", "name", name),
    }
}

pub(crate) fn window_value(alloc: Global, refusal: &WindowRefusal) -> Result<Value, AllocError>
    ensures { IfOk result (λ v. view v ≡ window_data refusal.now) }
{
    match refusal {
        WindowRefusal::BadRows { n } => coded_number(alloc, "BadRows", "n", u64::from(*n)),
        WindowRefusal::BadCols { n } => coded_number(alloc, "BadCols", "n", u64::from(*n)),
    }
}
