ghost use Rattle.std.specs.Prelude.{◌≡◌, IfOk};
ghost use Rattle.cm_plain.specs.Shape.{form_of};
ghost use Rattle.transaction.specs.Numbers.{IsNumber};
ghost use Rattle.values.specs.Rules.{AreLawful, Rules};
ghost use Rattle.values.specs.Shipped.{KeepsShipped};

use cm_plain::Shape;
use std::alloc::{AllocError, Global};

/// What the numbers of each sort of rule mean. Whoever builds on the core may have rules of his own: he implements this by a type
/// without values, and hands in the rules in a `Kit`. All theorems hold for every implementation.
pub trait Meanings {
    /// How many numbers each sort has, what shapes they take and give, and what each answers.
    ghost rules: { Rules };

    /// How many numbers there are of this sort; they run from 1.
    fn combiners() -> u32
        ensures { result ≡ rules.combiners };

    /// How many numbers there are of this sort; they run from 1.
    fn comparers() -> u32
        ensures { result ≡ rules.comparers };

    /// How many numbers there are of this sort; they run from 1.
    fn computers() -> u32
        ensures { result ≡ rules.computers };

    /// How many numbers there are of this sort; they run from 1.
    fn list_computers() -> u32
        ensures { result ≡ rules.list_computers };

    /// How many numbers there are of this sort; they run from 1.
    fn creators() -> u32
        ensures { result ≡ rules.creators };

    /// How many numbers there are of this sort; they run from 1.
    fn updaters() -> u32
        ensures { result ≡ rules.updaters };

    /// How many numbers there are of this sort; they run from 1.
    fn effect_maps() -> u32
        ensures { result ≡ rules.effect_maps };

    /// How many numbers there are of this sort; they run from 1.
    fn change_guards() -> u32
        ensures { result ≡ rules.change_guards };

    /// How many numbers there are of this sort; they run from 1.
    fn transaction_filters() -> u32
        ensures { result ≡ rules.transaction_filters };

    /// How many numbers there are of this sort; they run from 1.
    fn extenders() -> u32
        ensures { result ≡ rules.extenders };

    /// The shape of the inputs of a combiner. `Err`: out of memory.
    fn combine_input(alloc: Global, number: u32) -> Result<Shape, AllocError>
        requires { IsNumber rules.combiners number }
        ensures { IfOk result (λ shape. form_of shape ≡ rules.combine_input number) };

    /// The shape of what a combiner gives. `Err`: out of memory.
    fn combine_output(alloc: Global, number: u32) -> Result<Shape, AllocError>
        requires { IsNumber rules.combiners number }
        ensures { IfOk result (λ shape. form_of shape ≡ rules.combine_output number) };

    /// The shape of what a computer gives. `Err`: out of memory.
    fn compute_output(alloc: Global, number: u32) -> Result<Shape, AllocError>
        requires { IsNumber rules.computers number }
        ensures { IfOk result (λ shape. form_of shape ≡ rules.compute_output number) };

    /// The shape of each input that a computer of lists gives. `Err`: out of memory.
    fn list_output(alloc: Global, number: u32) -> Result<Shape, AllocError>
        requires { IsNumber rules.list_computers number }
        ensures { IfOk result (λ shape. form_of shape ≡ rules.list_output number) };

    /// The shape of what a creator gives. `Err`: out of memory.
    fn create_output(alloc: Global, number: u32) -> Result<Shape, AllocError>
        requires { IsNumber rules.creators number }
        ensures { IfOk result (λ shape. form_of shape ≡ rules.create_output number) };

    /// The shape of the value that an updater takes and gives. `Err`: out of memory.
    fn update_shape(alloc: Global, number: u32) -> Result<Shape, AllocError>
        requires { IsNumber rules.updaters number }
        ensures { IfOk result (λ shape. form_of shape ≡ rules.update_shape number) };

    /// Each answer is of its output shape, and comparers are sound.
    ghost lawful: { AreLawful rules };

    /// The numbers of the shipped rules keep their meanings.
    ghost keeps: { KeepsShipped rules };
}
