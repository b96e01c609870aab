// The ties of a query.
ghost use Rattle.std.specs.Prelude.{◌≡◌, ◌^◌, ◌&&◌, true, map, nat_lt, IfOk};
ghost use Rattle.std.specs.List.{list_all};
ghost use Rattle.blink_lists.specs.Lists.{joined};
ghost use Rattle.star_bind.specs.FactorParts.{primary_of};
ghost use Rattle.star_bind.specs.Joints.{tie_from_tied};
ghost use Rattle.star_bind.specs.Lookup.{scope_from};
ghost use Rattle.star_bind.specs.QueryParts.{is_addressable};
ghost use Rattle.star_bind.specs.StarForm.{ties_in};

use crate::names::scope::Entry;
use crate::query::Tie;
use crate::star::factors::Factor;
use crate::star::star_form::{Tied, joints_of, ties_of};
use blink_base::List;
use std::alloc::{AllocError, Global};

// Ties with numbers in 32 bits.
fn numbered_ties(alloc: Global, ties: &[Tied]) -> Result<List<Tie>, AllocError>
    requires { list_all (λ t. nat_lt t.dimension (2 ^ 32) && nat_lt t.column (2 ^ 32)) ties.now ≡ true }
    ensures { IfOk result (λ all. all ≡ map tie_from_tied ties.now) }
{
    let mut all = Vec::with_capacity(alloc, ties.len())?;
    for tie in ties {
        all.push(Tie {
            dimension: tie.dimension as u32,
            column: tie.column as u32,
        })?;
    }
    Ok(List::from_vec(all))
}

// The ties of this fact, in the order of their factors.
pub(crate) fn bound_ties(
    alloc: Global,
    scope: &[Entry],
    all: &[Factor],
    fact: usize,
) -> Result<List<Tie>, AllocError>
    requires { is_addressable (scope_from scope.now) ≡ true }
    ensures { IfOk result (λ ties. ties ≡ joined (map (ties_in (scope_from scope.now) fact) (map primary_of all.now))) }
{
    let joints = joints_of(alloc, scope, all)?;
    let ties = ties_of(alloc, scope, joints.as_slice(), fact)?;
    numbered_ties(alloc, ties.as_slice())
}
