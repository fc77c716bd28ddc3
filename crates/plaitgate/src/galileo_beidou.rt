// Galileo and BeiDou counts. C has a name for each of the two directions.
ghost use Rattle.refusals.specs.Outcome.{Gives, then};
ghost use Rattle.counts.specs.Exact.{up, down};
ghost use Rattle.scales.specs.Scales.{gps_minus_galileo, gps_minus_beidou};

use crate::give;
use scales::beidou::Beidou;
use scales::galileo::Galileo;

#[unsafe(no_mangle)]
pub extern "C" fn plaitgate_galileo_to_beidou(galileo: u64, beidou: &mut u64) -> u32
    ensures { Gives 0 (then (up gps_minus_galileo galileo) (down gps_minus_beidou)) result beidou.new }
{
    give::count(Galileo(galileo).to_beidou(), beidou)
}

#[unsafe(no_mangle)]
pub extern "C" fn plaitgate_beidou_to_galileo(beidou: u64, galileo: &mut u64) -> u32
    ensures { Gives 0 (then (up gps_minus_beidou beidou) (down gps_minus_galileo)) result galileo.new }
{
    give::count(Beidou(beidou).to_galileo(), galileo)
}
