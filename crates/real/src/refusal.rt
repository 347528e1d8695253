// The refusals of documents 01 and 02, by name.
ghost use Rattle.std.specs.Prelude.{◌≡◌, Some};
ghost use Rattle.real.specs.Refusal.{number_of, refused_words};

use std::error::Error;
use std::fmt;

#[derive(Clone, Copy, Debug, PartialEq, Eq, Hash)]
pub enum Refusal {
    // A number is NaN, infinite or out of range.
    BadNumber,
    // A tolerance or a line limit is out of range or NaN.
    BadTolerance,
    // The outline is not whole vertices, or too many, or too few for a view; a vertex is not three numbers.
    BadOutline,
    // A start or intersect index, or a position of a view, is not below its count.
    BadIndex,
    // An offset above the vertex count, or a traverse count of 0.
    BadOffset,
    // Radius and centre are asked of a line, or of an arc whose ends are fuzzily equal.
    NoArc,
    // Reversal or trim with offset 0 and bulges of unequal bits.
    UnevenBulges,
    // A lent buffer is shorter than what is to be written.
    NoRoom,
    // A trim without 0 <= i < j <= offset + 1.
    BadTrim,
    // A new start on an open outline.
    NotClosed,
    // A sheet's length, version, count, offset or flag is wrong.
    BadSheet,
    // A sheet record's direction is not 0 or 1.
    BadRecord,
    // A drawing's text is not of the accepted form.
    BadText,
}

impl From<Refusal> for u8 {
    ghost from_gives = { λ refusal n. n ≡ number_of refusal };

    fn from(refusal: Refusal) -> u8 {
        match refusal {
            Refusal::BadNumber => 1,
            Refusal::BadTolerance => 2,
            Refusal::BadOutline => 3,
            Refusal::BadIndex => 4,
            Refusal::BadOffset => 5,
            Refusal::NoArc => 6,
            Refusal::UnevenBulges => 7,
            Refusal::NoRoom => 8,
            Refusal::BadTrim => 9,
            Refusal::NotClosed => 10,
            Refusal::BadSheet => 11,
            Refusal::BadRecord => 12,
            Refusal::BadText => 13,
        }
    }
}

impl fmt::Display for Refusal {
    ghost output = { λ refusal. Some (refused_words refusal) };

    fn fmt<W: fmt::Write>(&self, f: &mut fmt::Formatter<W>) -> fmt::Result {
        write!(f, "refused {}", u8::from(*self))
    }
}

impl Error for Refusal {}
