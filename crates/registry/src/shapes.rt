// Whether values and what rules give are of the shapes that are wanted.
ghost use Rattle.std.specs.Prelude.{◌≡◌, IfOk};
ghost use Rattle.cm_plain.specs.Form.{fits};
ghost use Rattle.transaction.specs.Numbers.{IsNumber};
ghost use Rattle.values.specs.Vals.{is_of};

use std::alloc::{AllocError, Global};
use values::{Meanings, Val};

/// Whether a value is of the shape that a combiner takes.
pub fn is_input<M: Meanings>(alloc: Global, combine: u32, value: &Val) -> Result<bool, AllocError>
    requires { IsNumber M.rules.combiners combine }
    ensures { IfOk result (λ b. b ≡ is_of (M.rules.combine_input combine) value.now) }
{
    let shape = M::combine_input(alloc, combine)?;
    Ok(value.is_of(&shape))
}

/// Whether a value is of the shape that an updater takes.
pub fn is_init<M: Meanings>(alloc: Global, update: u32, value: &Val) -> Result<bool, AllocError>
    requires { IsNumber M.rules.updaters update }
    ensures { IfOk result (λ b. b ≡ is_of (M.rules.update_shape update) value.now) }
{
    let shape = M::update_shape(alloc, update)?;
    Ok(value.is_of(&shape))
}

/// Whether what a computer gives fits what a combiner takes.
pub fn is_computed_input<M: Meanings>(
    alloc: Global,
    combine: u32,
    rule: u32,
) -> Result<bool, AllocError>
    requires combine { IsNumber M.rules.combiners combine }
    requires rule { IsNumber M.rules.computers rule }
    ensures { IfOk result (λ b. b ≡ fits (M.rules.compute_output rule) (M.rules.combine_input combine)) }
{
    let output = M::compute_output(alloc, rule)?;
    let input = M::combine_input(alloc, combine)?;
    Ok(output.fits(&input))
}

/// Whether what a computer of lists gives fits what a combiner takes.
pub fn is_computed_list<M: Meanings>(
    alloc: Global,
    combine: u32,
    rule: u32,
) -> Result<bool, AllocError>
    requires combine { IsNumber M.rules.combiners combine }
    requires rule { IsNumber M.rules.list_computers rule }
    ensures { IfOk result (λ b. b ≡ fits (M.rules.list_output rule) (M.rules.combine_input combine)) }
{
    let output = M::list_output(alloc, rule)?;
    let input = M::combine_input(alloc, combine)?;
    Ok(output.fits(&input))
}

/// Whether what a creator gives fits what an updater takes.
pub fn is_created<M: Meanings>(alloc: Global, create: u32, update: u32) -> Result<bool, AllocError>
    requires create { IsNumber M.rules.creators create }
    requires update { IsNumber M.rules.updaters update }
    ensures { IfOk result (λ b. b ≡ fits (M.rules.create_output create) (M.rules.update_shape update)) }
{
    let output = M::create_output(alloc, create)?;
    let input = M::update_shape(alloc, update)?;
    Ok(output.fits(&input))
}
