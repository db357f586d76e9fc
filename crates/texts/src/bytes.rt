// Bytes of a slice: the one at a place, and whether two slices have the same.
ghost use Rattle.std.specs.Prelude.{◌≡◌, ◌↔◌, IsTrue};
ghost use Rattle.texts.specs.Words.{At};

// The byte at a place, none past the end.
pub fn byte_of(bytes: &[u8], place: usize) -> Option<u8>
    ensures { At bytes.now place result }
{
    bytes.get(place).copied()
}

// Whether both slices hold the same bytes: `==`, under the name by which texts are compared.
pub fn same_bytes(a: &[u8], b: &[u8]) -> bool
    ensures { IsTrue result ↔ (a.now ≡ b.now) }
{
    a == b
}
