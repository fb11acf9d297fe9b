//! Laws over the definitions.

ghost use Rattle.any_check.specs.Laws.{CostlyIsValid, FirstCauses, NoWantOfMemory, OfCheckStored, TakesRecordsHere, ValidIsVerdict, ValidIsVerdictOnSome, WithinNoBound};

/// Where `check_stored` has a verdict, `check_any` has the same, if the derivation takes no record but those of the table;
/// and that of [`record_kdf`](crate::record_kdf) takes no others.
pub fn of_check_stored()
    ensures same { OfCheckStored }
    ensures here { TakesRecordsHere }
{}

/// A password of more than 4,096 bytes, and then an identifier that no scheme has, come first, whatever the scheme.
pub fn first_causes()
    ensures causes { FirstCauses }
{}

/// Want of memory is no verdict and no cause: the definition never gives it.
pub fn no_want_of_memory()
    ensures none { NoWantOfMemory }
{}

/// A text whose cost is not above the bound has the verdict that it has without one.
pub fn within_no_bound()
    ensures same { WithinNoBound }
{}

/// A text that is answered by `TooCostly` has a verdict without the bound: no fault of the text hides behind it.
pub fn costly_is_valid()
    ensures valid { CostlyIsValid }
{}

/// The kind of a text tells whether [`check_any`](crate::check_any) has a verdict on it: on each password of at most 4,096
/// bytes without a zero byte, and so on some password, exactly where the text has no fault.
pub fn valid_is_verdict()
    ensures each { ValidIsVerdict }
    ensures some { ValidIsVerdictOnSome }
{}
