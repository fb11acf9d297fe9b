//! Laws over the definitions.

ghost use Rattle.std.specs.Prelude.{ℕ};
ghost use Rattle.pwcheck_run.specs.BenchOutcome.{IsCounted};

/// No line of `bench` is invalid, and of each four lines three match.
pub fn bench_counts()
    ensures counted { (n : ℕ) → IsCounted n }
{}
