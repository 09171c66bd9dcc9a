// The pages of a run's records (document 02, #101): lines of 27 columns, 50 to a page, the last page filled.
// Rules are those of crates/rules/specs/Pages.antt; the rule is named above the function. `Puts` says that a text is put into the output, `laid_out` what is left where
// there is too little room.
// A record is four bytes (document 01): a state and a refusal are numbers in them, and every byte has its columns. A place goes beside the output as in
// crates/digits, and texts are laid out by hand, since there is no heap. A check takes the output's length alone: it puts nothing.
#![tactic(auto)]

ghost use Rattle.std.specs.Prelude.{◌≡◌, [], ◌∷◌, ◌++◌, ◌*◌, ltb};
ghost use Rattle.rules.specs.Printout.{line_feed};
ghost use Rattle.rules.specs.Pages.{left_in, state_name, record_columns, page_bytes, page_count};
ghost use Rattle.digits.specs.Puts.{Puts};
ghost use Rattle.pages.specs.Output.{laid_out};

use digits::{digits_of, put, put_hexadecimal, put_word};

// A line, with its line feed; a page.
const LINE_BYTES: usize = 28;

const PAGE_LINES: usize = 50;

const PAGE_BYTES: usize = 1400;

// ---- lines

// The rules `left_in` and `state_name`: the name of a state in 12 columns.
#[tactic(auto, unfolding(rules::specs::Pages::left_in, rules::specs::Pages::state_name))]
fn name_of(state: u8) -> &'static [u8; 12]
    ensures { result.now ≡ left_in 12 (state_name state) }
{
    match state {
        0 => b"Free Run    ",
        1 => b"Holdover    ",
        2 => b"Pre-locked  ",
        3 => b"Locked      ",
        4 => b"Loss of lock",
        5 => b"Pre-locked 2",
        _ => b"            ",
    }
}

// The rule `record_columns` and a line feed, of a record with its index.
fn put_columns(index: usize, r: &[u8; 4], out: &mut [u8]) -> usize
    ensures { Puts (record_columns index r.now ++ line_feed ∷ []) 0 out.old result out.new }
{
    let [refusal, state, _, status] = *r;
    let mut next = put_word(&digits_of::<5>(index), 0, out);
    next = put(b' ', next, out);
    next = put_word(name_of(state / 16), next, out);
    next = put(b' ', next, out);
    next = put_word(&digits_of::<2>(usize::from(state % 16)), next, out);
    next = put(b' ', next, out);
    next = put_word(&digits_of::<2>(usize::from(refusal)), next, out);
    next = put_hexadecimal(status, next, out);
    put(b'\n', next, out)
}

// ---- pages

// "a page output under 1,400 bytes a page": whether so many bytes are too few for the pages of n records.
// Not: one byte too few passes; a page for no records.
#[tactic(auto, unfolding(rules::specs::Pages::page_count))]
pub fn too_short(n: usize, room: usize) -> bool
    ensures { result ≡ ltb room (page_bytes * page_count n) }
{
    room / PAGE_BYTES < n.div_ceil(PAGE_LINES)
}

// The rule `pages_of`: the pages of all records over the front of the output, if it has room for them.
// Not: pages put where there is too little room.
pub fn lay_out(records: &[u8], out: &mut [u8])
    ensures { out.new ≡ laid_out records.now out.old }
{
    let (rows, _) = records.as_chunks::<4>();
    let n = rows.len();
    if too_short(n, out.len()) {
        return;
    }
    // By places, since `chunks_exact_mut` says nothing of what the output ends as.
    for j in 0..PAGE_LINES * n.div_ceil(PAGE_LINES) {
        let start = LINE_BYTES * j;
        let end = start + LINE_BYTES;
        let line = &mut out[start..end];
        match rows.get(j) {
            Some(r) => put_columns(j, r, line),
            None => put_word(b"                           \n", 0, line),
        };
    }
}
