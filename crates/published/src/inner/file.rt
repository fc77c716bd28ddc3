// The lines of a list, one after the other in one pass, and the table that they make.
ghost use Rattle.std.specs.Prelude.{◌≡◌, ◌≤◌, length};
ghost use Rattle.texts.specs.Lines.{lines_of};
ghost use Rattle.tables.specs.Answers.{table_answer_in};
ghost use Rattle.published.specs.LeapSecondsList.{expiry_second, bad_list, of_records, of_lines};
ghost use Rattle.published.specs.Places.{reading_in};

use crate::ListAnswer;
use crate::inner::{LineRead, read_line, tai_second};
use records::inner::Gathered;
use refusals::Refusal;
use tables::{LeapTable, TableAnswer};

// A refusal of the form at a line, or at none, with the empty table.
pub fn refused_at(line: usize) -> ListAnswer
    ensures { reading_in result ≡ bad_list line }
{
    ListAnswer {
        answer: Err(Refusal::BadList),
        line,
        dropped: 0,
        table: LeapTable::new(),
    }
}

// What is made of a number of records: those that are no entry of the table were dropped.
fn answer_for(records: usize, made: TableAnswer) -> ListAnswer
    ensures { reading_in result ≡ of_records records (table_answer_in made) }
{
    ListAnswer {
        answer: made.answer,
        line: 0,
        dropped: match made.answer {
            Ok(()) => records.saturating_sub(made.table.len),
            Err(_) => 0,
        },
        table: made.table,
    }
}

// The TAI second of an expiry that was read, if any, by the last offset.
fn expiry_by(expiry: Option<u64>, offset: i32) -> Option<i128>
    ensures { result ≡ expiry_second expiry offset }
{
    expiry.map(|ntp| tai_second(ntp, offset))
}

// The table of a list that is not too long.
pub fn read_lines(s: &[u8]) -> ListAnswer
    requires { length s.now ≤ 65536 }
    ensures { reading_in result ≡ of_lines (lines_of s.now) }
{
    let mut gathered = Gathered::begin();
    let mut records: usize = 0;
    let mut expiry = None;
    let mut line: usize = 1;
    let mut at: usize = 0;
    while at < s.len() {
        let Some((read, end)) = read_line(&s[at..]) else {
            return refused_at(line);
        };
        match read {
            LineRead::Passes => {}
            LineRead::Holds(record) => {
                gathered.take(record);
                records += 1;
            }
            LineRead::Expires(ntp) => {
                if expiry.is_some() {
                    return refused_at(line);
                }
                expiry = Some(ntp);
            }
        }
        line += 1;
        at += end + 1;
    }
    let expires = expiry_by(expiry, gathered.seen.last.offset);
    answer_for(records, gathered.finish(Refusal::BadList, expires))
}
