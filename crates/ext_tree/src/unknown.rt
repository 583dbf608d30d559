// Ids that are no node of an arena.
ghost use Rattle.std.specs.Prelude.{◌≡◌, ◌++◌, ◌∷◌, [], fold};
ghost use Rattle.id_lists.specs.Least.{lesser};
ghost use Rattle.compartments.specs.Contents.{content_nodes};
ghost use Rattle.ext_tree.specs.Unknown.{unknown_ids, least_unknown};

use crate::node::ExtId;
use compartments::Contents;
use id_lists::lesser;

/// The lesser of an unknown id found before, if any, and an id, unless that is known.
fn lesser_unknown(count: usize, found: Option<ExtId>, id: ExtId) -> Option<ExtId>
    ensures { result ≡ fold lesser found (unknown_ids count (id ∷ [])) }
{
    if (id as usize) < count {
        found
    } else {
        lesser(found, id)
    }
}

/// The least of some ids that is not less than a count.
pub fn least_unknown(count: usize, ids: &[ExtId]) -> Option<ExtId>
    ensures { result ≡ least_unknown count ids.now }
{
    let mut least = None;
    for id in ids {
        least = lesser_unknown(count, least, *id);
    }
    least
}

/// The least of some ids and the nodes of set contents that is not less than a count.
pub fn least_unknown_of_call(count: usize, ids: &[ExtId], contents: &Contents) -> Option<ExtId>
    ensures { result ≡ least_unknown count (ids.now ++ content_nodes contents.now) }
{
    let mut least = least_unknown(count, ids);
    for node in contents.nodes() {
        least = lesser_unknown(count, least, *node);
    }
    least
}
