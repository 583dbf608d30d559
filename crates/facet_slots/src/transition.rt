use values::TrView;

/// A configuration is entered, or a transaction, which is lent, is made in one.
#[derive(Clone, Copy, Drop)]
pub enum Transition<'a> {
    Enter,
    Update(&'a TrView),
}
