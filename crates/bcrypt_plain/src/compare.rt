//! What decides whether two hashes are the same.

ghost use Rattle.std.specs.Prelude.{◌≡◌, ◌≤◌, ◌+◌, ◌^◌, ℕ, Bool, List};

use base64ct::Counts;

// A comparison of two hashes. Its answers are a meaning of which nothing else is known, so that a verdict which is stated by
// it comes from asking it.
pub(crate) trait Compare {
    // Its answer for two hashes.
    ghost same: { List ℕ → List ℕ → Bool };

    // How many bytes were compared.
    ghost sames: { Self → ℕ };

    // How many characters were looked up.
    ghost looks: { Self → ℕ };

    // Whether two hashes are the same. They are compared to their end.
    fn same_hashes(&mut self, a: &[u8; 23], b: &[u8; 23]) -> bool
        requires room { sames self.old ≤ 2 ^ 62 + 8 }
        ensures answer { result ≡ same a.now b.now }
        ensures sames { sames self.new ≡ sames self.old + 23 }
        ensures looks { looks self.new ≡ looks self.old };
}

impl Compare for Counts {
    ghost use Rattle.std.specs.Prelude.{◌==◌};
    ghost use Rattle.std.specs.Cmp.Lexicographic.{pointwise};

    ghost same = { λ a b. pointwise ◌==◌ a b };

    ghost sames = { λ c. c.sames };

    ghost looks = { λ c. c.looks };

    fn same_hashes(&mut self, a: &[u8; 23], b: &[u8; 23]) -> bool {
        bool::from(self.same_bytes(a, b))
    }
}
