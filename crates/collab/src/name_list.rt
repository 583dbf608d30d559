ghost use Rattle.std.specs.Prelude.{◌≡◌, [], None, option_copied};
ghost use Rattle.std.specs.List.{list_any};
ghost use Rattle.std.specs.Str.{bytes_eq};
ghost use Rattle.collab.specs.Worlds.{AreDistinct, taken_name};

use crate::update::is_same;
use cm_plain::Str;

/// Whether a name is among others.
fn is_among(name: &Str, others: &[Str]) -> bool
    ensures { result ≡ list_any (bytes_eq name.now) others.now }
{
    for other in others {
        if is_same(name, other) {
            return true;
        }
    }
    false
}

/// The first name that stands earlier in the list too; where there is none, the names are distinct. Takes no memory.
pub fn first_taken(names: &[Str]) -> Option<&Str>
    ensures value { option_copied result ≡ taken_name [] names.now }
    ensures distinct { result ≡ None → AreDistinct names.now }
{
    for (index, name) in names.iter().enumerate() {
        if is_among(name, &names[..index]) {
            return Some(name);
        }
    }
    None
}
