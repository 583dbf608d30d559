use cm_plain::Str;

/// Why a file can't be opened.
#[derive(Debug, Drop)]
pub enum FileRefusal {
    /// There is no file of this name.
    FileMissing { name: Str },
    /// The bytes of the file of this name aren't UTF-8.
    FileNotUtf8 { name: Str },
}
