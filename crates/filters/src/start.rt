use line_tree::Text;
use selection::Selection;
use transaction::EffectKinds;

/// The state that a transaction starts in, as far as filters go by it.
#[derive(Clone, Copy, Drop)]
pub struct Start<'a> {
    pub document: &'a Text,
    pub selection: &'a Selection,
    /// The value of the facet `allowMultipleSelections`: whether a selection may have several ranges.
    pub allows_multiple: bool,
    /// What is declared and can be named by effects.
    pub kinds: &'a EffectKinds,
    /// No document may have more characters than these.
    pub max: u32,
}
