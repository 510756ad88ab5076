// What an engine is made from besides program, memory and outlet, as bytes.
ghost use Rattle.std.specs.Prelude.{◌≡◌, ◌≤◌, length};
ghost use Rattle.calls.specs.Settings.{lines_in, places_in};

use std::marker::Model;

// More entry places than an engine can have cores.
const TOO_MANY: usize = 9;

/// Lines and entry places. Of more than nine entry places only nine are kept: as many are refused already.
/// A list in fixed memory: reading settings allocates nothing, and settings can be copied.
#[derive(Clone, Copy)]
pub struct Settings {
    lines: usize,
    kept: [usize; TOO_MANY],
    count: usize,
}

// Seen as the lines and the list of entry places. Places that are not used hold zeros, so that the two tell all of the settings.
impl Model for Settings {
    ghost use Rattle.std.specs.Prelude.{◌≡◌, ◌≤◌, ◌++◌, ◌-◌, length, take, drop, replicate};
    ghost use Rattle.std.proofs.Common.{◌∙◌, sym, ap, arith, take-append-drop, length-take-le};
    ghost use Rattle.calls.specs.Settings.{LinesAndPlaces};

    ghost Value = { LinesAndPlaces };

    ghost view = { λ s. record { lines = s.lines; places = take s.count s.kept } };

    ghost invariant = { λ s. (s.count ≤ 9) × (length s.kept ≡ 9) × (drop s.count s.kept ≡ replicate (9 - s.count) 0) };

    ghost inverse = { λ s. record { lines = s.lines; kept = s.places ++ replicate (9 - length s.places) 0; count = length s.places } };

    ghost inverse_ok = { λ s h i. record {
      lines = s.lines;
      kept = (ap (λ n. take s.count s.kept ++ replicate (9 - n) 0) (length-take-le s.count s.kept (omega (arith, h.0, h.1)))
          ∙ ap (λ k. take s.count s.kept ++ k) (sym h.2) ∙ take-append-drop s.count s.kept) i;
      count = length-take-le s.count s.kept (omega (arith, h.0, h.1)) i;
    } };
}

impl Settings {
    /// The settings that the bytes hold: the lines of a core, then the entry places, two bytes each.
    pub fn read(bytes: &[u8]) -> Settings
        ensures lines { result.lines ≡ lines_in bytes.now }
        ensures places { result.places ≡ places_in bytes.now }
    {
        let mut kept = [0; TOO_MANY];
        let [lines, rest @ ..] = bytes else {
            return Settings {
                lines: 0,
                kept,
                count: 0,
            };
        };
        let (pairs, _) = rest.as_chunks::<2>();
        let count = pairs.len().min(TOO_MANY);
        let first = &pairs[..count];
        for (i, pair) in first.iter().enumerate() {
            kept[i] = usize::from(u16::from_be_bytes(*pair));
        }
        Settings {
            lines: usize::from(*lines),
            kept,
            count,
        }
    }

    /// How many lines a core has.
    pub fn lines(&self) -> usize
        ensures { result ≡ self.now.lines }
    {
        self.lines
    }

    /// The entry places.
    pub fn places(&self) -> &[usize]
        ensures value { result.now ≡ self.now.places }
        ensures few { length result.now ≤ 9 }
    {
        &self.kept[..self.count]
    }
}
