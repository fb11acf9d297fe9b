//! What decides whether two digests are the same.

ghost use Rattle.std.specs.Prelude.{◌≡◌, ◌≤◌, ◌+◌, ◌^◌, ℕ, Bool, List};

use base64ct::Counts;

// A comparison of two digests. Nothing is known of its answers but that they are its own, so a verdict that is stated by them comes from
// asking it.
pub(crate) trait Compare {
    // Its answer for two digests.
    ghost same: { List ℕ → List ℕ → Bool };

    // How many bytes were compared.
    ghost sames: { Self → ℕ };

    // How many characters were looked up.
    ghost looks: { Self → ℕ };

    // Whether two digests are the same. They are compared to their end.
    fn same_digests(&mut self, a: &[u8; 32], b: &[u8; 32]) -> bool
        requires room { sames self.old ≤ 2 ^ 62 + 9 }
        ensures answer { result ≡ same a.now b.now }
        ensures sames { sames self.new ≡ sames self.old + 32 }
        ensures looks { looks self.new ≡ looks self.old };
}

impl Compare for Counts {
    ghost use Rattle.std.specs.Prelude.{nat_eq};
    ghost use Rattle.std.specs.Cmp.Lexicographic.{pointwise};

    ghost same = { λ a b. pointwise nat_eq a b };

    ghost sames = { λ c. c.sames };

    ghost looks = { λ c. c.looks };

    fn same_digests(&mut self, a: &[u8; 32], b: &[u8; 32]) -> bool {
        bool::from(self.same_bytes(a, b))
    }
}
