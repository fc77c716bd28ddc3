// GPS counts and TAI counts.
ghost use Rattle.refusals.specs.Outcome.{Gives};
ghost use Rattle.counts.specs.Exact.{up, down};
ghost use Rattle.scales.specs.Scales.{tai_minus_gps};

use crate::give;
use scales::gps::Gps;
use scales::tai::Tai;

#[unsafe(no_mangle)]
pub extern "C" fn plaitgate_gps_to_tai(count: u64, tai: &mut u64) -> u32
    ensures { Gives 0 (up tai_minus_gps count) result tai.new }
{
    give::count(Gps(count).to_tai(), tai)
}

#[unsafe(no_mangle)]
pub extern "C" fn plaitgate_gps_from_tai(tai: u64, count: &mut u64) -> u32
    ensures { Gives 0 (down tai_minus_gps tai) result count.new }
{
    give::count(Gps::from_tai(Tai(tai)), count)
}
