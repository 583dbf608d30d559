use values::SharedVal;

/// Where the value of a facet stands: here, where the facet lasts, since it has no inputs and had none, or in the slot of this number.
#[derive(Drop)]
pub enum Place {
    Lasting(SharedVal),
    Slot(usize),
}

/// The places of facets, by their ids.
#[derive(Drop)]
pub struct Places {
    pub list: Vec<Place>,
    /// How many slots there are.
    pub slot_count: usize,
    /// Whether each facet that may last does. No contract says so: it only decides whether states share the list.
    pub is_settled: bool,
}
