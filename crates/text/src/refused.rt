// How refusals are written.
ghost use Rattle.std.specs.Prelude.{Some};
ghost use Rattle.text.specs.Digits.{refused_text, refused_at_text};

use formats::refusal::{Placed, Refusal};
use std::fmt;

/// A refusal, by the number of its question.
#[derive(Clone, Copy, Drop, PartialEq, Eq, Debug)]
pub struct Refused<R>(pub R);

/// A refusal with its place.
#[derive(Clone, Copy, Drop, PartialEq, Eq, Debug)]
pub struct RefusedAt<F>(pub Placed<F>);

impl<R: Refusal> fmt::Display for Refused<R> {
    ghost output = { λ r. Some (refused_text (R.Refusal.number r.0)) };

    fn fmt<W: fmt::Write>(&self, f: &mut fmt::Formatter<W>) -> fmt::Result {
        write!(f, "refused {}", self.0.number())
    }
}

impl<F: Refusal> fmt::Display for RefusedAt<F> {
    ghost output = { λ r. Some (refused_at_text (F.Refusal.number r.0.fault) r.0.place) };

    fn fmt<W: fmt::Write>(&self, f: &mut fmt::Formatter<W>) -> fmt::Result {
        write!(f, "refused {} at {}", self.0.number(), self.0.place)
    }
}
