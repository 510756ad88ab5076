// A kind of entry that is packed into a fixed number of bytes.
ghost use Rattle.std.specs.Prelude.{◌≡◌, ℕ, ◌<◌, ◌≤◌, List, Ok, Result};
ghost use Rattle.formats.specs.Bytes.{AreBytes, bytes_of, spelled};

/// An entry whose packed form has BYTES bytes. `packed` is that form, and `unpacked` what some bytes unpack to.
/// Code that packs or unpacks goes by the number that the bytes spell, most significant first.
pub trait PackedEntry: Sized {
    type Fault;

    const BYTES: usize;

    // the same constant, for contracts
    ghost width: { ℕ };

    ghost packed: { Self → List ℕ };

    ghost unpacked: { List ℕ → Result Self Self.Fault };

    /// BYTES, for generic code: there each reading of a trait's constant counts as another number, and no clause can name it.
    fn size() -> usize
        ensures { result ≡ width };

    /// The packed form, as the number that its bytes spell.
    fn pack(self) -> u64
        ensures { result ≡ spelled (packed self) };

    /// What the lowest BYTES bytes of a number unpack to.
    fn unpack(code: u64) -> Result<Self, Self::Fault>
        ensures { result ≡ unpacked (bytes_of width code) };

    // a kind has one to eight bytes
    ghost some: { 0 < width };

    ghost few: { width ≤ 8 };

    // a packed entry has that many bytes
    ghost sized: { (e : Self) → AreBytes width (packed e) };

    // unpacking what was packed gives the entry
    ghost again: { (e : Self) → unpacked (packed e) ≡ Ok e };

    // packing what unpacks gives the bytes
    ghost back: { (bytes : List ℕ) (e : Self) → AreBytes width bytes → unpacked bytes ≡ Ok e → packed e ≡ bytes };
}
