//! The lines of a label.

ghost use Rattle.std.specs.Prelude.{◌≡◌, ◌≤◌, ◌==◌, if◌then◌else◌, length, take, drop};
ghost use Rattle.directory_files.specs.Labels.{first_lines, lines_behind};

/// How many lines each label has; an incremental backup's has two more behind them.
const FULL_LINES: u32 = 7;

/// How many lines a byte ends.
fn lines_ended(byte: u8) -> u32
    ensures { result ≡ (if byte == 10 then 1 else 0) }
{
    if byte == b'\n' { 1 } else { 0 }
}

/// Where the lines of a label's text end that the label of each backup has (PostgreSQL manual,
/// Making a Base Backup Using the Low Level API).
pub fn full_end(text: &[u8]) -> usize
    ensures within { result ≤ length text.now }
    ensures front { take result text.now ≡ first_lines 7 text.now }
    ensures behind { drop result text.now ≡ lines_behind 7 text.now }
{
    let mut left = FULL_LINES;
    let mut at = 0;
    while left > 0 && at < text.len() {
        left -= lines_ended(text[at]);
        at += 1;
    }
    at
}
