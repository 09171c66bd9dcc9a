// Numbers as text: in digits, put one behind the other or right-aligned in columns (document 01, "Run sheet and rack program"; document 02, #101).
// A text is put into the lent bytes from byte `at` on, as much of it as there is room for, and the byte after it is returned (`Puts`).
// A place goes beside the bytes, and no slice of what is left: `Puts` is of the whole output, and so says what stays before the text and after it.
// Digits are made here, since there is no heap for a `format!`.
// Rules are those of crates/rules/specs/Printout.antt and Pages.antt; a function that has one names it.
#![tactic(auto)]

ghost use Rattle.std.specs.Prelude.{◌≡◌, [], ◌∷◌, ◌-◌, ◌<◌, ◌≤◌, length};
ghost use Rattle.rules.specs.Printout as rules;
ghost use Rattle.rules.specs.Printout.{blank, decimal, hexadecimal};
ghost use Rattle.rules.specs.Pages.{blanks, right_in};
ghost use Rattle.digits.specs.Puts.{Puts};

// One byte.
// Not: another byte; the place itself returned.
pub fn put(byte: u8, at: usize, out: &mut [u8]) -> usize
    ensures { Puts (byte ∷ []) at out.old result out.new }
{
    if at < out.len() {
        out[at] = byte;
        at + 1
    } else {
        at
    }
}

// The bytes of a word.
// Not: the first byte lost; a byte past the word's end.
#[tactic(auto, using(crate::proofs::Putting::nothing))]
pub fn put_word(word: &[u8], at: usize, out: &mut [u8]) -> usize
    ensures { Puts word.now at out.old result out.new }
{
    let mut next = at;
    for byte in word {
        next = put(*byte, next, out);
    }
    next
}

// The rule `digit`.
#[tactic(auto, unfolding(rules::specs::Printout::digit))]
fn digit(d: u8) -> u8
    requires { d < 16 }
    ensures { result ≡ rules.digit d }
{
    if d < 10 { b'0' + d } else { b'a' - 10 + d }
}

// A number's digits, the last one first, at the end of columns that are blank; says where the first stands. The one way to write a number in digits.
fn written(n: usize, columns: &mut [u8]) -> usize
    requires { columns.old ≡ blanks (length columns.old) }
    ensures columns { columns.new ≡ right_in (length columns.old) (decimal n) }
    ensures start { result ≡ length columns.old - length (decimal n) }
{
    let mut rest = n;
    for i in (0..columns.len()).rev() {
        columns[i] = digit((rest % 10) as u8);
        if rest < 10 {
            return i;
        }
        rest /= 10;
    }
    0
}

// The rules `right_in` and `decimal`: a number in columns.
// Not: a 0 for a blank in front; the last digits lost where there are too many.
#[tactic(auto, using(crate::proofs::Columns::twenty))]
pub fn digits_of<const COLUMNS: usize>(n: usize) -> [u8; COLUMNS]
    ensures columns { result ≡ right_in COLUMNS (decimal n) }
    ensures whole { 20 ≤ COLUMNS → length (decimal n) ≤ COLUMNS }
{
    let mut columns = [b' '; COLUMNS];
    written(n, &mut columns);
    columns
}

// The rule `decimal`: a number has at most 20 digits.
// Not: the blanks in front put too; the last digit lost.
pub fn put_decimal(n: usize, at: usize, out: &mut [u8]) -> usize
    ensures { Puts (decimal n) at out.old result out.new }
{
    let mut columns = [b' '; 20];
    let start = written(n, &mut columns);
    put_word(&columns[start..], at, out)
}

// A blank and the rule `hexadecimal`.
// Not: the low digit first; no blank in front.
#[tactic(auto, using(crate::proofs::Putting::then), unfolding(rules::specs::Printout::hexadecimal))]
pub fn put_hexadecimal(byte: u8, at: usize, out: &mut [u8]) -> usize
    ensures { Puts (blank ∷ hexadecimal byte) at out.old result out.new }
{
    let high = put(b' ', at, out);
    let low = put(digit(byte / 16), high, out);
    put(digit(byte % 16), low, out)
}
