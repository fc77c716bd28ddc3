// Two tables that are held by value.
ghost use Rattle.std.specs.Prelude.{◌≡◌};
ghost use Rattle.refusals.specs.Outcome.{outcome_in};
ghost use Rattle.tables.specs.Slots.{entries_of, of_valid};
ghost use Rattle.alike.specs.Alike.{alike};

use crate::{Alike, inner};
use refusals::Refusal;
use tables::LeapTable;
use tables::inner::slots::Slots;

// Refuses 8 for the old table, 8 for the new one, then 1 where a count from which on they may differ does not fit.
pub fn alike(old: LeapTable, new: LeapTable) -> Result<Alike, Refusal>
    ensures { outcome_in result ≡ of_valid old (of_valid new (alike (entries_of old) (entries_of new))) }
{
    let old = Slots::of(&old)?;
    let new = Slots::of(&new)?;
    let regular = old.is_regular() && new.is_regular();
    inner::told(regular, inner::parting_of(&old, &new))
}
