//! Combines the judgements of the parts of a line.

ghost use Rattle.std.specs.Prelude.{◌≡◌};
ghost use Rattle.jasmin.specs.Judgements.{number, lesser, both, unless, judge_test};

use jasmin::statement::Flaw;

/// The judgement of a part of a line: its value, or its fault.
pub type Judged<T> = Result<T, Flaw>;

/// Returns the number of a fault.
fn number(flaw: Flaw) -> u8
    ensures { result ≡ number flaw }
{
    flaw as u8 + 1
}

/// Returns the fault of the lesser number.
pub fn lesser(first: Flaw, second: Flaw) -> Flaw
    ensures { result ≡ lesser first second }
{
    if number(first) <= number(second) {
        first
    } else {
        second
    }
}

/// Returns the values of two judgements, or the fault of the lesser number.
pub fn both<A: Drop, B: Drop>(first: Judged<A>, second: Judged<B>) -> Judged<(A, B)>
    ensures { result ≡ both first second }
{
    match (first, second) {
        (Ok(a), Ok(b)) => Ok((a, b)),
        (Ok(_), Err(flaw)) => Err(flaw),
        (Err(flaw), Ok(_)) => Err(flaw),
        (Err(flaw), Err(other)) => Err(lesser(flaw, other)),
    }
}

/// Returns the value of the first judgement, or the fault of the lesser number of both.
pub fn unless<A: Drop>(judged: Judged<A>, other: Judged<()>) -> Judged<A>
    ensures { result ≡ unless judged other }
{
    match (judged, other) {
        (Ok(a), Ok(())) => Ok(a),
        (Ok(_), Err(flaw)) => Err(flaw),
        (Err(flaw), Ok(())) => Err(flaw),
        (Err(flaw), Err(other)) => Err(lesser(flaw, other)),
    }
}

/// Returns no value if the test holds, or else the fault.
pub fn judge_test(test: bool, flaw: Flaw) -> Judged<()>
    ensures { result ≡ judge_test test flaw }
{
    if test { Ok(()) } else { Err(flaw) }
}
