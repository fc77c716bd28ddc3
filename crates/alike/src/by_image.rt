// Two tables in bytes. They are copied: who asks is about to push a table, and not to convert by it.
ghost use Rattle.std.specs.Prelude.{◌≡◌};
ghost use Rattle.refusals.specs.Outcome.{outcome_in};
ghost use Rattle.images.specs.Image.{by_image};
ghost use Rattle.alike.specs.Alike.{alike};

use crate::{Alike, by_value};
use images::inner::image::Image;
use refusals::Refusal;

// Refuses as `by_value::alike`.
pub fn alike<'a>(old: &'a [u8], new: &'a [u8]) -> Result<Alike, Refusal>
    ensures { outcome_in result ≡
        by_image old.now (λ es. by_image new.now (λ fs. alike es fs)) }
{
    by_value::alike(Image::of(old)?.table(), Image::of(new)?.table())
}
