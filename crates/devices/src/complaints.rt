ghost use Rattle.std.specs.Prelude.{◌≡◌, None};

use cm_outside::Status;

/// The line that standard error gets under a status, without its LF; none under `Ok` alone.
pub fn complaint(status: Status) -> Option<&'static str>
    ensures silent { status ≡ Status.Ok → result ≡ None }
    ensures told { result ≡ None → status ≡ Status.Ok }
{
    match status {
        Status::Ok => None,
        Status::Usage => Some(
            "ccm: usage: ccm replay | ccm edit FILE ROWS COLS | ccm make N | ccm collab",
        ),
        Status::ReadFault => Some("ccm: read fault"),
        Status::WriteFault => Some("ccm: write fault"),
        Status::StoreFault => Some("ccm: store fault"),
        Status::NoMemory => Some("ccm: out of memory"),
        Status::TooMuch => Some("ccm: input too long"),
        Status::BadFile => Some("ccm: file is not text"),
    }
}
