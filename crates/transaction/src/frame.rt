use crate::effect_kinds::EffectKinds;

/// What specs are merged over.
#[derive(Drop)]
pub struct Frame<'a, M> {
    /// The length of the start document, in characters.
    pub len: u32,
    /// No document may have more characters than these.
    pub max: u32,
    /// What is declared and can be named by effects.
    pub kinds: &'a EffectKinds,
    /// The maps of effects.
    pub maps: &'a M,
}
