// Tables in bytes whose count is known, low byte first, read and written as a whole.
pub mod entries;
pub mod image;
pub mod lookup;

ghost use Rattle.std.specs.Prelude.{◌≡◌, [], ◌+◌, length};
ghost use Rattle.refusals.specs.Number.{number_of};
ghost use Rattle.refusals.specs.Outcome.{then};
ghost use Rattle.counts.specs.Exact.{down};
ghost use Rattle.counts.specs.Units.{second};
ghost use Rattle.scales.specs.Scales.{tai_minus_gps};
ghost use Rattle.tables.specs.Answers.{taken_in, table_answer_in, dated_in};
ghost use Rattle.tables.specs.Slots.{table_of, entries_of};
ghost use Rattle.tables.specs.Expiry.{stale_at, dated};
ghost use Rattle.conversions.specs.Shifted.{later_of};
ghost use Rattle.images.specs.Image.{image_bytes, table_in, image_of, stored};

use crate::inner::image::ValidImage;
use conversions::inner::by_table;
use refusals::Refusal;
use tables::{Dated, LeapTable, RUNTIME_CAPACITY, TableAnswer};
use words::inner::{complement, put_number};

pub const LENGTH_BYTES: usize = 8;

pub const THRESHOLD_BYTES: usize = 8;

pub const OFFSET_BYTES: usize = 4;

// An entry of a list: 12.
pub const ENTRY_BYTES: usize = THRESHOLD_BYTES + OFFSET_BYTES;

// Where the offsets of an image begin: 520.
pub const OFFSETS_AT: usize = LENGTH_BYTES + RUNTIME_CAPACITY * THRESHOLD_BYTES;

// Where the expiry of an image begins: 776.
pub const EXPIRY_AT: usize = OFFSETS_AT + RUNTIME_CAPACITY * OFFSET_BYTES;

pub const EXPIRY_BYTES: usize = 8;

// The bytes of an image: 784.
pub const IMAGE_BYTES: usize = EXPIRY_AT + EXPIRY_BYTES;

// A refusal, with the empty table.
pub fn no_table(why: Refusal) -> TableAnswer
    ensures { table_answer_in result ≡ (number_of why, table_of []) }
{
    TableAnswer {
        answer: Err(why),
        table: LeapTable::new(),
    }
}

// The count of a scale that is behind GPS, by the later of two GPS counts that share a UTC count. The table is copied for
// that, where the earlier is before the scale's epoch.
pub fn shifted_by_later(table: ValidImage, gps: u64, behind: u64) -> Dated<u64>
    ensures { dated_in result ≡
        dated (stale_at (table_in table.entry.image.bytes.now).expiry (gps + second + tai_minus_gps))
        (then (later_of (entries_of (table_in table.entry.image.bytes.now)) gps) (down behind)) }
{
    by_table::shifted_by_later(gps, table.image.table(), behind)
}

// The image of a table over what was there: the length, then a threshold and an offset at a turn, then the expiry.
pub fn put_table(image: &mut [u8], table: LeapTable)
    requires { length image.old ≡ image_bytes }
    ensures { image.new ≡ image_of table }
{
    put_number(image, 0, LENGTH_BYTES, table.len as u64);
    for i in 0..RUNTIME_CAPACITY {
        put_number(
            image,
            LENGTH_BYTES + THRESHOLD_BYTES * i,
            THRESHOLD_BYTES,
            table.thresholds[i],
        );
        let bits = complement(table.offsets[i]) as u64;
        put_number(image, OFFSETS_AT + OFFSET_BYTES * i, OFFSET_BYTES, bits);
    }
    put_number(image, EXPIRY_AT, EXPIRY_BYTES, table.expiry);
}

// The image of the table in an answer, or its refusal and the bytes as they were.
pub fn store(image: &mut [u8], after: TableAnswer) -> Result<(), Refusal>
    requires { length image.old ≡ image_bytes }
    ensures { (taken_in result, image.new) ≡ stored image.old (table_answer_in after) }
{
    after.answer?;
    put_table(image, after.table);
    Ok(())
}
