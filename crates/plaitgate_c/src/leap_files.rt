// The calls of plaitgate::leap_files, for hosts. Written by tools/write-exports.
ghost use Rattle.std.specs.Prelude.{◌≡◌};
ghost use Rattle.plaitgate.specs.Tables.{list_left, image_listed};

#[unsafe(no_mangle)]
pub extern "C" fn plaitgate_read_leap_list(bytes: &[u8], image: &mut [u8], line: &mut u64) -> u32
    ensures { list_left result line.new image.new ≡
        image_listed bytes.now image.old }
{
    plaitgate::leap_files::plaitgate_read_leap_list(bytes, image, line)
}
