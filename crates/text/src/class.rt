// Classes of bytes.
ghost use Rattle.std.specs.Prelude.{◌≡◌, ◌≤◌, length};
ghost use Rattle.std.specs.List.{prefix_len};
ghost use Rattle.text.specs.Lines.{in_class};

// A class of bytes.
#[derive(Clone, Copy, PartialEq, Eq, Debug)]
pub(crate) enum Class {
    // any byte but `#`
    NotHash,
    // space, tab or carriage return
    Blank,
    // any byte that is not blank
    NotBlank,
}

impl Class {
    // Whether a byte is of the class.
    fn has(self, byte: u8) -> bool
        ensures { result ≡ in_class self byte }
    {
        match self {
            Class::NotHash => byte != b'#',
            Class::Blank => is_blank(byte),
            Class::NotBlank => !is_blank(byte),
        }
    }

    // How many bytes at the front are of the class.
    pub(crate) fn leading(self, bytes: &[u8]) -> usize
        ensures value { result ≡ prefix_len (in_class self) bytes.now }
        ensures within { result ≤ length bytes.now }
    {
        bytes.iter().take_while(|b| self.has(**b)).count()
    }
}

// Whether a byte is space, tab or carriage return.
fn is_blank(byte: u8) -> bool
    ensures { result ≡ in_class Class.Blank byte }
{
    matches!(byte, b' ' | b'\t' | b'\r')
}
