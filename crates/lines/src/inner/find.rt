// Finds the lines of an input in its blocks. A line that stands whole in a block is answered from there. One that a
// block cuts is completed in a line buffer of 128 bytes, of which the first `used` are its bytes. Of a longer line the
// buffer keeps the first 128 bytes, and they have to decide the answer (`AnswersLines` in specs/Lines.antt).
ghost use Rattle.std.specs.Prelude.{◌≡◌, ◌≤◌, min, length, take};
ghost use Rattle.lines.specs.Pieces.{line_up_to, Keeps};

use crate::inner::put::put_bytes;

const LINE_ROOM: usize = 128;

// Keeps the bytes of the block from `at` to `end` in the line buffer, as many as there is room for. Returns how many
// are used then.
pub fn keep(line: &mut [u8], used: usize, block: &[u8], at: usize, end: usize) -> usize
    requires line_len { length line.old ≡ 128 }
    requires used_bound { used ≤ 128 }
    requires at_le_end { at ≤ end }
    requires end_in_bounds { end ≤ length block.now }
    ensures { Keeps (line_up_to line.old used block.now at end) line.new result }
{
    let kept = (end - at).min(LINE_ROOM - used);
    let stop = at + kept;
    put_bytes(line, used, &block[at..stop]);
    used + kept
}

// The line that ends at `end`: from `at` on in the block, where it stands whole, or else completed in the line buffer.
pub fn whole_line<'a>(
    line: &'a mut [u8],
    used: usize,
    block: &'a [u8],
    at: usize,
    end: usize,
) -> &'a [u8]
    requires line_len { length line.old ≡ 128 }
    requires used_bound { used ≤ 128 }
    requires at_le_end { at ≤ end }
    requires end_in_bounds { end ≤ length block.now }
    ensures { take 128 result.now ≡ take 128 (line_up_to line.old used block.now at end) }
{
    if used == 0 {
        return &block[at..end];
    }
    let n = keep(line, used, block, at, end);
    let held = &line[..];
    &held[0..n]
}

// What came of a block: how many bytes of the line buffer are used, of the block taken, and of answers made.
#[derive(Clone, Copy)]
pub struct Answered {
    pub used: usize,
    pub taken: usize,
    pub made: usize,
}
