// The write buffer of a core: up to 32 lines, in the order in which they were made.
ghost use Rattle.std.specs.Prelude.{◌≡◌, ◌<◌, ◌≤◌, [], ◌∷◌, ◌++◌, true, false, length, slice_set, MatchOption};
ghost use Rattle.model.specs.Lines.{has_line, tagged, tags, any_dirty, next_write, after_write, Distinct};
ghost use Rattle.model.specs.Calls.{LineTags};
ghost use Rattle.cores.specs.Buffers.{line_at, restored, dirty_index, LineOf, wrote_by};

use arrayvec::ArrayVec;
use formats::bounds::MOST_LINES;
use model::line::Line;
use model::refusal::TagsRefusal;
use std::marker::Model;

// The lines, in fixed memory. The buffer can be copied, and so can a core.
#[derive(Clone, Copy)]
pub(crate) struct Buffer {
    places: [Line; MOST_LINES],
    used: usize,
}

// Seen as the list of its lines, oldest first, each at an address of its own. Places that are not used hold blank lines, so that
// the list tells all of a buffer.
impl Model for Buffer {
    ghost use Rattle.std.specs.Prelude.{List, ◌++◌, ◌-◌, length, take, replicate};
    ghost use Rattle.std.proofs.Common.{◌∙◌, sym, ap, arith, take-append-drop, length-take-le};
    ghost use Rattle.formats.specs.declared.bounds.TheConstants.{MOST_LINES};
    ghost use Rattle.model.specs.declared.line.Line.{Line};
    ghost use Rattle.cores.specs.Buffers.{no_line, Filled};

    ghost Value = { List Line };

    ghost view = { λ b. take b.used b.places };

    ghost invariant = { λ b. Filled b.places b.used };

    ghost inverse = { λ ls. record { places = ls ++ replicate (MOST_LINES - length ls) no_line; used = length ls } };

    ghost inverse_ok = { λ b h i. record {
      places = (ap (λ n. take b.used b.places ++ replicate (MOST_LINES - n) no_line)
          (length-take-le b.used b.places (omega (arith, h.few, h.sized)))
          ∙ ap (λ ls. take b.used b.places ++ ls) (sym h.blank) ∙ take-append-drop b.used b.places) i;
      used = length-take-le b.used b.places (omega (arith, h.few, h.sized)) i;
    } };
}

impl Buffer {
    // A buffer with no line.
    pub(crate) fn new() -> Buffer
        ensures { result ≡ [] }
    {
        Buffer {
            places: [Line::default(); MOST_LINES],
            used: 0,
        }
    }

    // The lines, oldest first.
    fn lines(&self) -> &[Line]
        ensures value { result.now ≡ self.now }
        ensures few { length self.now ≤ MOST_LINES }
        ensures apart { Distinct self.now }
    {
        &self.places[..self.used]
    }

    // How many lines there are.
    pub(crate) fn len(&self) -> usize
        ensures value { result ≡ length self.now }
        ensures few { result ≤ MOST_LINES }
        ensures apart { Distinct self.now }
    {
        self.used
    }

    // Where the line at an address stands, or None where there is none.
    pub(crate) fn find(&self, address: usize) -> Option<usize>
        ensures { MatchOption result (has_line self.now address ≡ false) (λ i. LineOf self.now address i) }
    {
        self.lines().iter().position(|line| line.address == address)
    }

    // The value of a line.
    pub(crate) fn value(&self, index: usize) -> u32
        requires { index < length self.now }
        ensures { result ≡ (line_at self.now index).value }
    {
        self.lines()[index].value
    }

    // Makes one more line, at an address that has none.
    pub(crate) fn push(&mut self, line: Line)
        requires room { length self.old < MOST_LINES }
        requires fresh { has_line self.old line.address ≡ false }
        ensures { self.new ≡ self.old ++ line ∷ [] }
    {
        self.places[self.used] = line;
        self.used += 1;
    }

    // Puts another word into a line, which is dirty then; its tag stays as it is.
    pub(crate) fn store(&mut self, index: usize, value: u32)
        requires { index < length self.old }
        ensures { self.new ≡ slice_set self.old index (restored (line_at self.old index) value) }
    {
        let line = self.lines()[index];
        self.places[index] = Line {
            value,
            dirty: true,
            ..line
        };
    }

    // Whether a line is dirty.
    pub(crate) fn any_dirty(&self) -> bool
        ensures { result ≡ any_dirty self.now }
    {
        self.lines().iter().any(|line| line.dirty)
    }

    // Where the oldest dirty line stands, or None where no line is dirty.
    fn first_dirty(&self) -> Option<usize>
        ensures { result ≡ dirty_index self.now }
    {
        self.lines().iter().position(|line| line.dirty)
    }

    // Writes out the oldest dirty line, which is dirty no more; answers its address and word, or None where no line is dirty.
    pub(crate) fn write_next(&mut self) -> Option<(usize, u32)>
        ensures write { wrote_by result ≡ next_write self.old }
        ensures lines { self.new ≡ after_write self.old }
    {
        let index = self.first_dirty()?;
        let line = self.lines()[index];
        self.places[index] = Line {
            dirty: false,
            ..line
        };
        Some((line.address, line.value))
    }

    // Empties the buffer.
    pub(crate) fn clear(&mut self)
        ensures { self.new ≡ [] }
    {
        // A buffer with no line is empty already.
        if self.used != 0 {
            *self = Buffer::new();
        }
    }

    // Whether there is a line at an address with its read tag set.
    pub(crate) fn tagged(&self, address: usize) -> bool
        ensures { result ≡ tagged self.now address }
    {
        self.lines()
            .iter()
            .any(|line| line.address == address && line.tag)
    }

    // The tagged addresses, in the order of the lines.
    fn tagged_addresses(&self) -> ArrayVec<usize, MOST_LINES>
        ensures value { result.items ≡ tags self.now }
        ensures apart { Distinct self.now }
    {
        let tagged = self
            .lines()
            .iter()
            .filter(|line| line.tag)
            .map(|line| line.address);
        // All find room: there are at most 32 lines.
        let mut addresses = ArrayVec::new();
        let _ = addresses.extend(tagged);
        addresses
    }

    // Copies the tagged addresses to the first places of a list and answers their number.
    pub(crate) fn tags(&self, list: &mut [usize]) -> Result<usize, TagsRefusal>
        ensures { LineTags self.now list.old list.new result }
    {
        let addresses = self.tagged_addresses();
        let count = addresses.len();
        if count > list.len() {
            return Err(TagsRefusal::TooShort);
        }
        list[..count].copy_from_slice(&addresses);
        Ok(count)
    }
}
