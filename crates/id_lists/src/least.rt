// The lesser of two numbers.
ghost use Rattle.std.specs.Prelude.{◌≡◌};
ghost use Rattle.id_lists.specs.Least.{lesser};

/// The lesser of a number found before, if any, and another. Takes no memory.
pub fn lesser(found: Option<u32>, number: u32) -> Option<u32>
    ensures { result ≡ lesser found number }
{
    match found {
        None => Some(number),
        Some(other) => Some(other.min(number)),
    }
}
