use crate::deps::Deps;
use crate::tr_view::TrView;

/// What the rule that updates a field is shown: the transaction, and what the field reads in the new state.
#[derive(Drop)]
pub struct UpdateView {
    pub transaction: TrView,
    pub deps: Deps,
}

impl UpdateView {
    ghost use Rattle.values.specs.Views.{AreDeps, IsTransaction};

    /// What may be relied on in what is shown.
    pub fn known(&self)
        ensures transaction { IsTransaction self.now.transaction }
        ensures deps { AreDeps self.now.deps }
    {
        self.transaction.known();
        self.deps.known();
    }
}
