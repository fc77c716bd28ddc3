// The 784 bytes of an image, each part of the table in them read where it stands.
ghost use Rattle.std.specs.Prelude.{◌≡◌, cond, true, false, ◌<◌, get_or, length, pos, MatchResult};
ghost use Rattle.refusals.specs.Number.{number_of};
ghost use Rattle.tables.specs.Slots.{slot_at, valid_table, no_expiry};
ghost use Rattle.images.specs.Image.{image_bytes, sized, table_in};

use crate::inner::{
    EXPIRY_AT, IMAGE_BYTES, LENGTH_BYTES, OFFSET_BYTES, OFFSETS_AT, THRESHOLD_BYTES,
};
use refusals::Refusal;
use tables::{LeapEntry, LeapTable, NO_EXPIRY, RUNTIME_CAPACITY};
use words::inner::{number_in_4, number_in_8, signed};

// Any 784 bytes: what they hold may be no valid table.
#[derive(Clone, Copy)]
pub struct Image<'a> {
    pub bytes: &'a [u8; IMAGE_BYTES],
    ghost size: { length bytes.now ≡ image_bytes },
}

impl<'a> Image<'a> {
    // Bytes of any other number are refused with 8.
    pub fn of(bytes: &'a [u8]) -> Result<Self, Refusal>
        ensures { MatchResult result (λ image. image.bytes.now ≡ bytes.entry.now)
            (λ why. (number_of why ≡ 8) × (sized bytes.entry.now ≡ false)) }
    {
        match <&[u8; IMAGE_BYTES]>::try_from(bytes) {
            Ok(bytes) => Ok(Image { bytes }),
            Err(_) => Err(Refusal::BadTable),
        }
    }

    // The length that the table says it has.
    pub fn len(self) -> usize
        ensures { result ≡ (table_in self.entry.bytes.now).len }
    {
        let bytes = self.bytes;
        number_in_8(bytes, 0) as usize
    }

    pub fn expiry(self) -> u64
        ensures { result ≡ (table_in self.entry.bytes.now).expiry }
    {
        let bytes = self.bytes;
        number_in_8(bytes, EXPIRY_AT)
    }

    // The threshold in slot i.
    pub fn threshold(self, i: usize) -> u64
        requires { i < 64 }
        ensures { result ≡ get_or (table_in self.entry.bytes.now).thresholds i 0 }
    {
        let bytes = self.bytes;
        number_in_8(bytes, LENGTH_BYTES + THRESHOLD_BYTES * i)
    }

    // The offset in slot i.
    pub fn offset(self, i: usize) -> i32
        requires { i < 64 }
        ensures { result ≡ get_or (table_in self.entry.bytes.now).offsets i (pos 0) }
    {
        let bytes = self.bytes;
        signed(number_in_4(bytes, OFFSETS_AT + OFFSET_BYTES * i) as u32)
    }

    // The entry in slot i.
    pub fn entry(self, i: usize) -> LeapEntry
        requires { i < 64 }
        ensures { result ≡
            slot_at (table_in self.entry.bytes.now).thresholds (table_in self.entry.bytes.now).offsets i }
    {
        LeapEntry {
            tai_nanos: self.threshold(i),
            tai_minus_utc: self.offset(i),
        }
    }

    // The whole table, copied.
    pub fn table(self) -> LeapTable
        ensures { result ≡ table_in self.entry.bytes.now }
    {
        let mut thresholds = [0u64; RUNTIME_CAPACITY];
        let mut offsets = [0i32; RUNTIME_CAPACITY];
        for i in 0..RUNTIME_CAPACITY {
            thresholds[i] = self.threshold(i);
            offsets[i] = self.offset(i);
        }
        LeapTable {
            thresholds,
            offsets,
            len: self.len(),
            expiry: self.expiry(),
        }
    }
}

// The expiry of the table in an image; none where the bytes are no image.
pub fn expiry(image: &[u8]) -> u64
    ensures { result ≡ cond (sized image.now) (table_in image.now).expiry no_expiry }
{
    match Image::of(image) {
        Ok(image) => image.expiry(),
        Err(_) => NO_EXPIRY,
    }
}

// An image whose table has passed the test.
#[derive(Clone, Copy)]
pub struct ValidImage<'a> {
    pub image: Image<'a>,
    ghost valid: { valid_table (table_in image.bytes.now) ≡ true },
}
