// How far two tables convert alike.
ghost use Rattle.std.specs.Prelude.{◌≡◌};
ghost use Rattle.refusals.specs.Outcome.{Gives, changed, outcome_in};
ghost use Rattle.plaitgate.specs.Tables.{alike_as, in_numbers};

use crate::give::told;
use alike::Alike;
use refusals::Refusal;

// 1 everywhere, 2 before the counts where one table extends the other, 3 before them where neither does, and 0 where
// nothing is said.
fn tell(alike: Alike, how: &mut u8, gps: &mut u64, utc: &mut u64)
    ensures { alike_as how.new gps.new utc.new ≡ in_numbers alike }
{
    match alike {
        Alike::Irregular => {
            *how = 0;
            *gps = 0;
            *utc = 0;
        }
        Alike::Everywhere => {
            *how = 1;
            *gps = 0;
            *utc = 0;
        }
        Alike::Before(counts) => {
            *how = 2;
            *gps = counts.gps;
            *utc = counts.utc;
        }
        Alike::Apart(counts) => {
            *how = 3;
            *gps = counts.gps;
            *utc = counts.utc;
        }
    }
}

pub fn alike(answer: Result<Alike, Refusal>, how: &mut u8, gps: &mut u64, utc: &mut u64) -> u32
    ensures { Gives (alike_as 0 0 0) (changed in_numbers (outcome_in answer)) result
        (alike_as how.new gps.new utc.new) }
{
    let (number, alike) = told(answer, Alike::Irregular);
    tell(alike, how, gps, utc);
    number
}
