use crate::facet_inputs::FacetInputs;
use values::SharedVal;

/// A facet or a field in a state: its value, none for an absent field and for what wasn't found yet; what the inputs of a facet
/// give, none of a field; and whether it is flagged in the transition that made the state.
#[derive(Drop)]
pub struct Slot {
    pub value: Option<SharedVal>,
    pub inputs: FacetInputs,
    pub flag: bool,
}
