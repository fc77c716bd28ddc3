// Files with leap seconds, read into an image of 784 bytes.
ghost use Rattle.std.specs.Prelude.{◌≡◌};
ghost use Rattle.plaitgate.specs.Tables.{list_left, image_listed};

use crate::give;
use images::inner::{IMAGE_BYTES, put_table};
use refusals::Refusal;

// The published leap-seconds.list. On a refusal of the file the image is that of the empty table.
#[unsafe(no_mangle)]
pub extern "C" fn plaitgate_read_leap_list(bytes: &[u8], image: &mut [u8], line: &mut u64) -> u32
    ensures { list_left result line.new image.new ≡
        image_listed bytes.now image.old }
{
    if image.len() != IMAGE_BYTES {
        *line = 0;
        return Refusal::BadTable.number();
    }
    let read = published::read(bytes);
    *line = read.line as u64;
    put_table(image, read.table);
    give::taken(read.answer)
}
