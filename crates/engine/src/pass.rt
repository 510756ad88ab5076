// The host's pass: given out by hold, shown to read, spent by give back.

/// A pass is neither copied nor dropped: code that lets one go does not build, nor code that gives one back twice.
pub struct Pass {
    sealed: (),
}

impl Pass {
    pub(crate) fn issue() -> Pass {
        Pass { sealed: () }
    }

    pub(crate) fn spend(self) {
        let Pass { sealed: () } = self;
    }
}
