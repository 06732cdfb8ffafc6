// The operations, by code.
ghost use Rattle.std.specs.Prelude.{◌≡◌, false};
ghost use Rattle.fxtable.specs.declared.domains.Domain.TheVariants.{Fixnum};
ghost use Rattle.fxtable.specs.Operations.{has_two};
ghost use Rattle.fxtable.specs.Table.{is_code, row_of, signature_from, signature_of};
ghost use Rattle.fxtable.specs.Calls.{is_count};

use super::domains::{Domain, Domain as D};

pub const CODES: u64 = 41;

pub fn is_code(code: u64) -> bool
    ensures { result ≡ is_code code }
{
    1 <= code && code <= CODES
}

// What a code says of its arguments and results: how many arguments it takes, the domains of those after the first, which may be
// any fixnum, and whether there are two results.
#[derive(Clone, Copy)]
pub struct Signature {
    pub least: u64,
    pub most: u64,
    pub second: Domain,
    pub third: Domain,
    pub fourth: Domain,
    pub double: bool,
}

fn row(
    least: u64,
    most: u64,
    second: Domain,
    third: Domain,
    fourth: Domain,
    double: bool,
) -> Signature
    ensures { result ≡ signature_from least most second third fourth double }
{
    Signature {
        least,
        most,
        second,
        third,
        fourth,
        double,
    }
}

// A row whose arguments may be any fixnums, with one result.
fn plain(least: u64, most: u64) -> Signature
    ensures { result ≡ signature_from least most Fixnum Fixnum Fixnum false }
{
    row(least, most, D::Fixnum, D::Fixnum, D::Fixnum, false)
}

// The table of document 01. For a number that is no code: a row that allows no count. Constants in each arm: the compiler makes
// tables of them.
#[tactic(auto, unfolding(crate::specs::Table::signature_of, crate::specs::Table::row_of, crate::specs::Table::rows, crate::specs::Domains::domain_at, crate::specs::Operations::has_two))]
pub fn signature_of(code: u64) -> Signature
    ensures { result ≡ signature_of code }
{
    match code {
        1 => plain(2, 4), // fx=?
        2 => plain(2, 4), // fx>?
        3 => plain(2, 4), // fx<?
        4 => plain(2, 4), // fx>=?
        5 => plain(2, 4), // fx<=?
        6 => plain(1, 1), // fxzero?
        7 => plain(1, 1), // fxpositive?
        8 => plain(1, 1), // fxnegative?
        9 => plain(1, 1), // fxodd?
        10 => plain(1, 1), // fxeven?
        11 => plain(1, 4), // fxmax
        12 => plain(1, 4), // fxmin
        13 => plain(2, 2), // fx+
        14 => plain(2, 2), // fx*
        15 => plain(1, 2), // fx-
        16 => row(2, 2, D::Divisor, D::Fixnum, D::Fixnum, false), // fxdiv
        17 => row(2, 2, D::Divisor, D::Fixnum, D::Fixnum, false), // fxmod
        18 => row(2, 2, D::Divisor, D::Fixnum, D::Fixnum, true), // fxdiv-and-mod
        19 => row(2, 2, D::Divisor, D::Fixnum, D::Fixnum, false), // fxdiv0
        20 => row(2, 2, D::Divisor, D::Fixnum, D::Fixnum, false), // fxmod0
        21 => row(2, 2, D::Divisor, D::Fixnum, D::Fixnum, true), // fxdiv0-and-mod0
        22 => row(3, 3, D::Fixnum, D::Fixnum, D::Fixnum, true), // fx+/carry
        23 => row(3, 3, D::Fixnum, D::Fixnum, D::Fixnum, true), // fx-/carry
        24 => row(3, 3, D::Fixnum, D::Fixnum, D::Fixnum, true), // fx*/carry
        25 => plain(1, 1), // fxnot
        26 => plain(0, 4), // fxand
        27 => plain(0, 4), // fxior
        28 => plain(0, 4), // fxxor
        29 => plain(3, 3), // fxif
        30 => plain(1, 1), // fxbit-count
        31 => plain(1, 1), // fxlength
        32 => plain(1, 1), // fxfirst-bit-set
        33 => row(2, 2, D::Position, D::Fixnum, D::Fixnum, false), // fxbit-set?
        34 => row(3, 3, D::Position, D::NewBit, D::Fixnum, false), // fxcopy-bit
        35 => row(3, 3, D::Position, D::FieldEnd, D::Fixnum, false), // fxbit-field
        36 => row(4, 4, D::Position, D::FieldEnd, D::Fixnum, false), // fxcopy-bit-field
        37 => row(2, 2, D::SignedDistance, D::Fixnum, D::Fixnum, false), // fxarithmetic-shift
        38 => row(2, 2, D::Distance, D::Fixnum, D::Fixnum, false), // fxarithmetic-shift-left
        39 => row(2, 2, D::Distance, D::Fixnum, D::Fixnum, false), // fxarithmetic-shift-right
        40 => row(4, 4, D::Position, D::FieldEnd, D::Rotation, false), // fxrotate-bit-field
        41 => row(3, 3, D::Position, D::FieldEnd, D::Fixnum, false), // fxreverse-bit-field
        _ => plain(1, 0),
    }
}

// Whether a code takes so many arguments.
pub fn is_count(code: u64, count: u64) -> bool
    ensures { result ≡ is_count code count }
{
    let s = signature_of(code);
    s.least <= count && count <= s.most
}

pub fn has_two_results(code: u64) -> bool
    ensures { result ≡ has_two (row_of code).results }
{
    signature_of(code).double
}
