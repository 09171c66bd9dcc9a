// The rack program (document 01, "Run sheet and rack program"): reads a run sheet from standard input and prints its records, or its refusal, in one write.
// Its arrays are of fixed size, with a length beside each: there is no heap.
#![tactic(auto)]

ghost use Rattle.std.specs.Prelude.{◌≤◌, ◌<◌, length, take, IfOk};
ghost use Rattle.std.specs.Io.KnownBytes.{Consumes, IsAtEnd};
ghost use Rattle.rules.specs.Printout.{printed};
ghost use Rattle.rack.specs.Front.{Front};
ghost use Rattle.rack.specs.Read.{bytes_read};

use std::io::{Read, Write};

// The rule `printed`: the text of a sheet's run on the standard fresh unit, at the front of the lent array, and its length. It is that of the part that the
// run hands back; there is room for the most records that a sheet gives, 8,383.
// Not: the length of the array returned; a text that starts at the second byte.
fn print_sheet(sheet: &[u8], out: &mut [u8; 151000]) -> usize
    ensures { Front (printed sheet.now) out.old result out.new }
{
    let mut records = [0u8; 33532];
    if let Err(refusal) = sheet::check(sheet, records.len()) {
        return text::refused(u8::from(refusal), out);
    }
    let part = run::run(sheet, &mut records);
    text::lines(part, out)
}

// Reads into the buffer, up to the end of the input or of the buffer: how many bytes now stand at its front. An error is so many that came before a read that failed.
// Not: the length of the buffer.
fn read_sheet<R: Read>(reader: &mut R, buffer: &mut [u8]) -> Result<usize, usize>
    ensures within { bytes_read result ≤ length buffer.new }
    ensures bytes { Consumes (R.remaining reader.old) (R.remaining reader.new) (take (bytes_read result) buffer.new) }
    ensures whole { IfOk result (λ n. n < length buffer.new → IsAtEnd (R.remaining reader.new)) }
{
    let mut n = 0;
    // a `while`, since each read says how many bytes came
    while n < buffer.len() {
        match reader.read(&mut buffer[n..]) {
            Ok(0) => return Ok(n),
            Ok(more) => n += more,
            Err(_) => return Err(n),
        }
    }
    Ok(n)
}

// "The program reads a sheet from standard input": all of it, or as much as shows that it is over 65,535 bytes. Where a read fails nothing is printed; that, and
// a write that fails, is said on standard error.
#[tactic(auto, using(crate::proofs::Printed::front_within))]
fn main(rt: HostRuntime) {
    let mut buffer = [0u8; 65536];
    let Ok(n) = read_sheet(&mut rt.stdin(), &mut buffer) else {
        let _ = rt
            .stderr()
            .write_all(b"rack: standard input cannot be read\n");
        return;
    };
    let mut out = [0u8; 151000];
    let length = print_sheet(&buffer[..n], &mut out);
    if rt.stdout().write_all(&out[..length]).is_err() {
        let _ = rt.stderr().write_all(b"rack: not all lines could be written to standard output\n");
    }
}
