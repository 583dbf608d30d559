use values::Val;

/// The values, in the start state, of the facets that filters go by.
#[derive(Clone, Copy, Drop)]
pub struct FilterFacets<'a> {
    /// The numbers of change guards, from the highest precedence to the lowest (Reference Manual, EditorState.changeFilter).
    pub change_filter: &'a Val,
    /// The numbers of transaction filters, likewise (Reference Manual, EditorState.transactionFilter).
    pub transaction_filter: &'a Val,
    /// The numbers of extenders, likewise (Reference Manual, EditorState.transactionExtender).
    pub transaction_extender: &'a Val,
    /// What each of these rules is handed beside the transaction: the value of the facet `filterData`.
    pub filter_data: &'a Val,
}
