//! What a text asks for, and which texts an upgrade leaves as they are.

ghost use Rattle.std.specs.Prelude.{◌≡◌};
ghost use Rattle.shadow_table.specs.Strength.{costs_memory, costs_of_make, costs_work, family_work, has_less, is_as_high, is_fewer, is_weaker, is_weaker_kind, keeps_kind, numbers_of};

use any_check::{CostFamily, Costs, TextCosts, TextKind};
use any_make::MakeCost;
use shadow_survey::{memory, work};

// The memory of a text in KiB.
fn costs_memory(text: &TextCosts) -> u64
    ensures { result ≡ costs_memory text.now }
{
    memory(text.scheme.family(), &text.costs)
}

// The work by the family.
fn family_work(family: CostFamily, costs: &Costs) -> u64
    ensures { result ≡ family_work family costs.now }
{
    match family {
        CostFamily::Yescrypt => memory(CostFamily::Yescrypt, costs),
        other => work(other, costs),
    }
}

// The work of a text in KiB.
fn costs_work(text: &TextCosts) -> u64
    ensures { result ≡ costs_work text.now }
{
    family_work(text.scheme.family(), &text.costs)
}

// Whether both numbers are asked for, and the first is less.
fn is_fewer(new: u64, old: u64) -> bool
    ensures { result ≡ is_fewer new old }
{
    0 < new && new < old
}

// The same of rounds or costs, where the old text isn't weak by its scheme.
fn has_less(new: &TextCosts, old: &TextCosts) -> bool
    ensures { result ≡ has_less new.now old.now }
{
    !old.scheme.is_weak()
        && (is_fewer(new.costs.rounds, old.costs.rounds)
            || is_fewer(new.costs.cost, old.costs.cost))
}

// Whether the first has less memory or less work than the second, or fewer rounds or a lower cost.
fn is_weaker(new: &TextCosts, old: &TextCosts) -> bool
    ensures { result ≡ is_weaker new.now old.now }
{
    costs_memory(new) < costs_memory(old) || costs_work(new) < costs_work(old) || has_less(new, old)
}

/// The same of two texts. Nothing is weaker than a text without a verdict.
pub(crate) fn is_weaker_kind(new: TextKind, old: TextKind) -> bool
    ensures { result ≡ is_weaker_kind new old }
{
    match (new, old) {
        (TextKind::Valid(new), TextKind::Valid(old)) => is_weaker(&new, &old),
        (_, TextKind::Valid(_)) => true,
        _ => false,
    }
}

// The numbers of a cost.
fn numbers_of(cost: MakeCost) -> Costs
    ensures { result ≡ numbers_of cost }
{
    match cost {
        MakeCost::ShaCrypt(_, rounds) | MakeCost::Pbkdf2(_, rounds) => {
            Costs::of_rounds(rounds as u64)
        }
        MakeCost::Scrypt(cost) => Costs::of_ln_r_p(cost.ln as u64, cost.r as u64, cost.p as u64),
        MakeCost::Bcrypt(cost) => Costs::of_cost(cost as u64),
        MakeCost::Yescrypt(cost) => {
            Costs::of_ln_r_t(cost.ln as u64, cost.r as u64, cost.t as u64)
        }
        MakeCost::Argon2id(cost) => Costs::of_m_t_p(
            cost.memory as u64,
            cost.passes as u64,
            cost.lanes as u64,
        ),
    }
}

// What a text of this cost asks for.
fn costs_of_make(cost: MakeCost) -> TextCosts
    ensures { result ≡ costs_of_make cost }
{
    TextCosts {
        scheme: cost.scheme(),
        costs: numbers_of(cost),
    }
}

// Whether the second is of the scheme of the first, and none of its numbers is lower.
fn is_as_high(fresh: &TextCosts, old: &TextCosts) -> bool
    ensures { result ≡ is_as_high fresh.now old.now }
{
    old.scheme.place() == fresh.scheme.place() && !fresh.costs.is_above(&old.costs)
}

/// Whether an upgrade to this cost leaves a text as it is.
pub(crate) fn keeps_kind(cost: MakeCost, kind: TextKind) -> bool
    ensures { result ≡ keeps_kind cost kind }
{
    match kind {
        TextKind::NoScheme | TextKind::Invalid => false,
        TextKind::Valid(old) => {
            let fresh = costs_of_make(cost);
            is_as_high(&fresh, &old) || is_weaker(&fresh, &old)
        }
    }
}
