// The text that the rack program prints for a sheet (document 01, "Run sheet and rack program").
// Each text is put into the lent bytes, as much of it as there is room for, and the byte after it is returned; the bytes after it are unchanged.
// A refusal is its number, as the text and a record have it; a record is four bytes (document 01). A place goes beside the output as in crates/digits, and
// texts are put by hand, since there is no heap.
// Each contract cites a rule of crates/rules/specs/Printout.antt; the rule is named above the function.
#![tactic(auto)]

ghost use Rattle.rules.specs.Printout.{refused_word, head_line, record_line};
ghost use Rattle.digits.specs.Puts.{Puts};
ghost use Rattle.text.specs.Text.{records_text};

use digits::{put, put_decimal, put_hexadecimal, put_word};

// The rule `head_line`, at the front.
fn put_head(word: &[u8], n: usize, out: &mut [u8]) -> usize
    ensures { Puts (head_line word.now n) 0 out.old result out.new }
{
    let number = put_word(word, 0, out);
    let end = put_decimal(n, number, out);
    put(b'\n', end, out)
}

// The rule `record_line`, of a record with its index.
fn put_line(index: usize, r: &[u8; 4], at: usize, out: &mut [u8]) -> usize
    ensures { Puts (record_line index r.now) at out.old result out.new }
{
    let [refusal, state, qualified, status] = *r;
    let mut next = put_decimal(index, at, out);
    next = put(b' ', next, out);
    next = put_decimal(usize::from(refusal), next, out);
    next = put_hexadecimal(state, next, out);
    next = put_hexadecimal(qualified, next, out);
    next = put_hexadecimal(status, next, out);
    put(b'\n', next, out)
}

// "`refused N`": the rule `head_line`.
// Not: no line feed.
#[tactic(auto, unfolding(rules::specs::Printout::refused_word))]
pub fn refused(number: u8, out: &mut [u8]) -> usize
    ensures { Puts (head_line refused_word number) 0 out.old result out.new }
{
    put_head(b"refused ", usize::from(number), out)
}

// "`records N`" and a line for each record: the rules `head_line` and `record_lines`.
// Not: the last record lost; the number of bytes for that of records.
pub fn lines(records: &[u8], out: &mut [u8]) -> usize
    ensures { Puts (records_text records.now) 0 out.old result out.new }
{
    let (rows, _) = records.as_chunks::<4>();
    let mut next = put_head(b"records ", rows.len(), out);
    for (i, r) in rows.iter().enumerate() {
        next = put_line(i, r, next, out);
    }
    next
}
