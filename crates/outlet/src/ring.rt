// Where a ring of places stands: which place is the oldest, and how many are filled from it on.
ghost use Rattle.std.specs.Prelude.{◌≡◌, ◌-◌, ◌<◌, ◌≤◌};
ghost use Rattle.outlet.specs.Ring.{wrapped, claim_answer, release_answer};

#[derive(Clone, Copy, PartialEq, Eq, Debug)]
pub(crate) struct Ring {
    places: usize,
    first: usize,
    count: usize,
    ghost inside: { first ≤ places - 1 },
    ghost filled: { count ≤ places },
    ghost small: { places < 9223372036854775808 },
}

impl Ring {
    ghost use Rattle.outlet.specs.Places.{room_in, Empty, Claimed, Released};

    // A ring of so many places, none of them filled.
    pub(crate) fn new(places: usize) -> Ring
        requires { places < 9223372036854775808 }
        ensures { Empty places result }
    {
        Ring {
            places,
            first: 0,
            count: 0,
        }
    }

    // How many places are free.
    pub(crate) fn room(&self) -> usize
        ensures { result ≡ room_in self.now }
    {
        self.places - self.count
    }

    // Claims the place behind the filled ones, and answers which it is; where none is free, nothing changes.
    pub(crate) fn claim(&mut self) -> Option<usize>
        ensures value { result ≡ claim_answer self.old.places self.old.first self.old.count }
        ensures ring { Claimed self.old self.new }
    {
        if self.count < self.places {
            let place = self.wrap(self.first + self.count);
            self.count += 1;
            Some(place)
        } else {
            None
        }
    }

    // Releases the oldest filled place, and answers which it is; where none is filled, nothing changes.
    pub(crate) fn release(&mut self) -> Option<usize>
        ensures value { result ≡ release_answer self.old.first self.old.count }
        ensures ring { Released self.old self.new }
    {
        if self.count > 0 {
            let place = self.first;
            self.first = self.wrap(place + 1);
            self.count -= 1;
            Some(place)
        } else {
            None
        }
    }

    // A place gone round: the first again behind the last.
    fn wrap(&self, place: usize) -> usize
        ensures { result ≡ wrapped self.now.places place }
    {
        if place < self.places {
            place
        } else {
            place - self.places
        }
    }
}
