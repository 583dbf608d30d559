// Whether layers have a decoration other than a mark: one that stands for what it covers.
ghost use Rattle.std.specs.Prelude.{◌≡◌};
ghost use Rattle.blocks.specs.Points.{has_point, has_points};

use decoration::{DecoSet, Layers};

/// Whether some layer has a decoration that stands for what it covers: where none has, each line of a text is a block, and its
/// characters alone are shown of it.
pub fn has_points(layers: &Layers) -> bool
    ensures { result ≡ has_points layers.now }
{
    for set in layers.sets() {
        if has_point(set) {
            return true;
        }
    }
    false
}

/// Whether the set has a decoration that stands for what it covers: a widget, a replacement or a line decoration.
fn has_point(set: &DecoSet) -> bool
    ensures { result ≡ has_point set.now }
{
    match set.points().next() {
        Some(_) => true,
        None => false,
    }
}
