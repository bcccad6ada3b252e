// An input cut into records: each is ended by CR LF, by LF or by the end of the input.
ghost use Rattle.std.specs.Prelude.{◌≡◌, ◌<◌, ◌≤◌, true, false, [], ◌∷◌, length, IfSome, MatchOption};
ghost use Rattle.texts.specs.Records.{records, without_return as stripped, feeds, Settled};
ghost use Rattle.texts.specs.Readings.{Begins, ReadByLineEnds};

use crate::pieces::cut_at;

// The line without the CR that ends it.
fn without_return(line: &[u8]) -> &[u8]
    ensures { result.now ≡ stripped line.now }
{
    line.strip_suffix(b"\r").unwrap_or(line)
}

// The first record of an input that is not over, and what follows its end.
fn first_record(rest: &[u8]) -> (&[u8], &[u8])
    requires { 0 < length rest.now }
    ensures begins { Begins result.0.now result.1.now rest.now }
    ensures cuts { records rest.now ≡ result.0.now ∷ records result.1.now }
    ensures shorter { length result.1.now < length rest.now }
{
    match cut_at(rest, b'\n') {
        (line, Some(after)) => (without_return(line), after),
        (line, None) => (line, b""),
    }
}

// The first record of what is left of an input, and what follows its end; none where nothing is left.
#[tactic(auto, using(crate::proofs::Read::records_nothing))]
pub fn cut_record(rest: &[u8]) -> Option<(&[u8], &[u8])>
    ensures begins { MatchOption result (rest.now ≡ []) (λ cut. Begins cut.0.now cut.1.now rest.now) }
    ensures cuts { MatchOption result (records rest.now ≡ []) (λ cut. records rest.now ≡ cut.0.now ∷ records cut.1.now) }
    ensures shorter { IfSome result (λ cut. length cut.1.now < length rest.now) }
    ensures reads { ReadByLineEnds rest.now }
{
    (!rest.is_empty()).then(|| first_record(rest))
}

// How many line ends a short row of bytes has. Its count has 8 bits, so that a row is counted 16 bytes at a time:
// `filter` and `count`, which count in a `usize`, take a tenth more instructions of a whole run.
fn few_line_ends(row: &[u8]) -> u8
    requires { length row.now ≤ 128 }
    ensures { result ≡ feeds row.now }
{
    row.iter().map(|b| u8::from(*b == b'\n')).sum()
}

// How many line ends the bytes have. As many records of an input are settled: what follows does not change them.
#[tactic(auto, using(crate::proofs::Settled::settled))]
pub fn line_ends(bytes: &[u8]) -> usize
    ensures count { result ≡ feeds bytes.now }
    ensures settles { Settled result bytes.now }
{
    let mut count = 0;
    for row in bytes.chunks(128) {
        count += usize::from(few_line_ends(row));
    }
    count
}
