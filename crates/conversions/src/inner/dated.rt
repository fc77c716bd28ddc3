// Steps after a conversion by a table: whether the table is stale at the TAI reading that was looked up last stays told.
ghost use Rattle.std.specs.Prelude.{◌≡◌};
ghost use Rattle.tables.specs.Answers.{dated_in};
ghost use Rattle.refusals.specs.Outcome.{outcome_in, changed};
ghost use Rattle.counts.specs.Exact.{down};
ghost use Rattle.conversions.specs.Conversions.{glonass_epoch, utc_to_unix};
ghost use Rattle.conversions.specs.ByLookup.{then_dated, changed_dated};
ghost use Rattle.conversions.specs.Answers.{dated_on};

use crate::inner::steps;
use refusals::Refusal;
use scales::scale::Scale;
use tables::Dated;

fn counted<S: Scale>(count: Result<u64, Refusal>) -> Result<S, Refusal>
    ensures { changed S.count (outcome_in result) ≡ outcome_in count }
{
    Ok(S::from_nanos(count?))
}

// The count on a scale.
pub fn on_scale<S: Scale>(count: Dated<u64>) -> Dated<S>
    ensures { dated_on S.count result ≡ dated_in count }
{
    Dated {
        answer: counted(count.answer),
        stale: count.stale,
    }
}

// The step to GLONASS after a conversion to UTC.
pub fn glonass_from_utc(utc: Dated<u64>) -> Dated<u64>
    ensures { dated_in result ≡ then_dated (dated_in utc) (down glonass_epoch) }
{
    Dated::new(steps::glonass_from_utc(utc.answer), utc.stale)
}

// The step to Unix seconds.
pub fn unix_from_utc(utc: Dated<u64>) -> Dated<i64>
    ensures { dated_in result ≡ changed_dated utc_to_unix (dated_in utc) }
{
    Dated {
        answer: steps::unix_from_utc(utc.answer),
        stale: utc.stale,
    }
}
