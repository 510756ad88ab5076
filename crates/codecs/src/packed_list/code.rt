// Up to eight bytes as one number, most significant first.
ghost use Rattle.std.specs.Prelude.{◌≡◌, ◌≤◌, length};
ghost use Rattle.formats.specs.Bytes.{AllBytes, bytes_of, spelled};

// The number that some bytes spell.
pub(crate) fn spell(bytes: &[u8]) -> u64
    requires { length bytes.now ≤ 8 }
    ensures value { result ≡ spelled bytes.now }
    ensures bytes { AllBytes bytes.now }
{
    let mut all = [0; 8];
    all[8 - bytes.len()..].copy_from_slice(bytes);
    u64::from_be_bytes(all)
}

// Writes a number's lowest bytes, as many as there is place for.
pub(crate) fn write(out: &mut [u8], code: u64)
    requires { length out.old ≤ 8 }
    ensures { out.new ≡ bytes_of (length out.old) code }
{
    let all = code.to_be_bytes();
    let from = 8 - out.len();
    out.copy_from_slice(&all[from..]);
}
