// The start of a line of a text, and whether it can be shown.
ghost use Rattle.std.specs.Prelude.{◌≡◌, ◌-◌, ◌≤◌, ◌<◌, length, drop};
ghost use Rattle.texts.specs.Lines.{lines_of};
ghost use Rattle.leaplist.specs.Report.{is_text, all_text, start_of_line};

use texts::inner::next_end;

// How much of a line is shown.
const MOST_SHOWN: usize = 40;

// A tab, or a byte from the space to the tilde.
fn is_text_byte(b: u8) -> bool
    ensures { result ≡ is_text b }
{
    (b == b'\t') | ((b' ' <= b) & (b <= b'~'))
}

// Whether every byte is text.
pub fn is_text(s: &[u8]) -> bool
    ensures { result ≡ all_text s.now }
{
    let mut all = true;
    let mut i: usize = 0;
    while i < s.len() {
        all = all & is_text_byte(s[i]);
        i += 1;
    }
    all
}

// The place where a line begins, by its number from 1 on; the end of the text where there are fewer lines.
fn line_place(s: &[u8], line: usize) -> usize
    requires { 0 < line }
    ensures { (lines_of (drop result s.now) ≡ drop (line - 1) (lines_of s.now))
        × (result ≤ length s.now) }
{
    let mut at: usize = 0;
    let mut left = line - 1;
    while left > 0 {
        let end = next_end(s, at);
        if end == s.len() {
            return end;
        }
        at = end + 1;
        left -= 1;
    }
    at
}

// The first 40 bytes of a line.
pub fn start_of_line<'a>(s: &'a [u8], line: usize) -> &'a [u8]
    requires { 0 < line }
    ensures { result.now ≡ start_of_line line s.now }
{
    let at = line_place(s, line);
    let end = next_end(s, at);
    if end - at < MOST_SHOWN {
        return &s[at..end];
    }
    let stop = at + MOST_SHOWN;
    &s[at..stop]
}
