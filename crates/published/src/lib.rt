// The published leap-seconds.list, read into a table. The file is foreign input: any bytes get a table or a refusal.
#![tactic(auto)]

pub mod inner;

ghost use Rattle.std.specs.Prelude.{◌≡◌};
ghost use Rattle.published.specs.LeapSecondsList.{list_read};
ghost use Rattle.published.specs.Places.{reading_in};

use refusals::Refusal;
use tables::LeapTable;

// The longest file that is read.
pub const MOST_BYTES: usize = 65_536;

// Whether a table was made, or why not; the number of a malformed line, from 1, or 0; how many data lines were dropped
// before the table's first entry; and the table. On a refusal none is dropped, and the table has no entry.
#[derive(Clone, Copy)]
pub struct ListAnswer {
    pub answer: Result<(), Refusal>,
    pub line: usize,
    pub dropped: usize,
    pub table: LeapTable,
}

// The table of a list in one pass over its bytes.
pub fn read(bytes: &[u8]) -> ListAnswer
    ensures { reading_in result ≡ list_read bytes.now }
{
    if MOST_BYTES < bytes.len() {
        return inner::file::refused_at(0);
    }
    inner::file::read_lines(bytes)
}
