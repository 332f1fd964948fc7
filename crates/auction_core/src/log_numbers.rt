//! The number with which a step's log begins. Lines that extend a formula are numbered on from its clauses, as in LRAT (Cruz-Filipe
//! et al. 2017).

ghost use Rattle.std.specs.Prelude.{◌≡◌, ◌==◌, ◌+◌};
ghost use Rattle.auction_core.specs.LogNumbers.{first_number, first_of};

use cert_types::answer::Receipt;
use rup_check::line::Log;

// Whether `n` is one more than `m`. Written without `m + 1`, which could overflow.
fn is_one_above(n: u64, m: u64) -> bool
    ensures { result ≡ (n == m + 1) }
{
    if n == 0 {
        return false;
    }
    n - 1 == m
}

/// Returns whether `first` is the number of the first line of a log over this many clauses; 0 if the log has no line.
pub(crate) fn is_first(first: u64, clauses: u64, log: &Log) -> bool
    ensures { result ≡ (first == first_number clauses log.now.lines) }
{
    if log.lines.is_empty() {
        return first == 0;
    }
    is_one_above(first, clauses)
}

/// Returns whether `first` is the number of the first line of a receipt's log; 0 if the receipt has no log or the log has no line.
pub(crate) fn is_first_of(first: u64, clauses: u64, receipt: &Receipt) -> bool
    ensures { result ≡ (first == first_of clauses receipt.now) }
{
    match receipt {
        Receipt::Lines(log) => is_first(first, clauses, log),
        Receipt::Moves(_) => first == 0,
    }
}
