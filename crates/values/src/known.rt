ghost use Rattle.std.specs.Prelude.{◌≡◌, true};
ghost use Rattle.std.specs.List.{list_all};
ghost use Rattle.cm_plain.specs.Datum.{data_of};
ghost use Rattle.cm_plain.specs.Plain.{datum_of};
ghost use Rattle.values.specs.InRange.{data_in_range, datum_in_range, set_in_range};

use cm_plain::{Plain, PlainList};
use decoration::DecoSet;

/// Reads each number of plain data: a proof takes from a read that the number lies in the range of its type.
#[cycle(known)]
pub(crate) fn known_plain(plain: &Plain)
    ensures { datum_in_range (datum_of plain.now) ≡ true }
{
    match plain {
        Plain::Int(number) => {
            let _read = *number;
        }
        Plain::List(list) => known_list(list),
        _ => {}
    }
}

/// Reads each number of a list.
#[cycle(known)]
fn known_list(list: &PlainList)
    ensures { data_in_range (data_of list.now) ≡ true }
{
    for item in list.as_slice() {
        known_plain(item);
    }
}

/// What a set tells of the ends of its ranges.
pub(crate) fn known_set(set: &DecoSet)
    ensures { set_in_range set.now ≡ true }
{
    set.known();
}

/// What each of some sets tells.
pub(crate) fn known_sets(sets: &[DecoSet])
    ensures { list_all set_in_range sets.now ≡ true }
{
    for set in sets {
        known_set(set);
    }
}
