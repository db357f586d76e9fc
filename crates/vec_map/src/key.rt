// Keys: what a pair map has to know of its keys.
ghost use Rattle.std.specs.Prelude.{◌≡◌, Bool};
ghost use Rattle.std.specs.Str.{bytes_eq};
ghost use Rattle.vec_map.specs.Fair.{same_bytes_fair};
ghost use Rattle.vec_map.specs.Rows.{Equivalence};

use texts::Text;

// A key has a sameness that is an equivalence.
pub trait Key: Copy {
    ghost alike: { Self → Self → Bool };

    ghost fair: { Equivalence alike };

    fn same_key(&self, other: &Self) -> bool
        ensures { result ≡ alike self.now other.now };
}

// Every text is a key, by its bytes.
impl<T: Text> Key for T {
    ghost alike = { λ a b. bytes_eq (T.bytes a) (T.bytes b) };

    ghost fair = { same_bytes_fair T.bytes };

    fn same_key(&self, other: &T) -> bool {
        self.same(other)
    }
}
