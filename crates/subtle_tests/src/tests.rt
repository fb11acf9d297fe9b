//! Worked values, and each call once, the generic ones through their bounds.
ghost use Rattle.std.specs.Prelude.{◌≡◌};

use std::cell::Cell;
use std::cmp::Ordering;
use subtle::{
    BlackBox, Choice, ConditionallyNegatable, ConditionallySelectable, ConstantTimeEq,
    ConstantTimeGreater, ConstantTimeLess, Counting, CtOption, SameByte, ct_eq_slices, eq_with,
    laws,
};

fn choice(yes: bool) -> Choice
    ensures { result ≡ yes }
{
    Choice::from_u8(u8::from(yes))
}

/// The answers of `ct_eq` and `ct_ne`.
fn equality<T: ConstantTimeEq>(a: &T, b: &T) -> [u8; 2] {
    [a.ct_eq(b).unwrap_u8(), a.ct_ne(b).unwrap_u8()]
}

/// The answers of `ct_gt` and `ct_lt`.
fn order<T: ConstantTimeLess>(a: &T, b: &T) -> [u8; 2] {
    [a.ct_gt(b).unwrap_u8(), a.ct_lt(b).unwrap_u8()]
}

/// What selection, assignment and exchange make of two values.
fn selection<T: ConditionallySelectable>(a: T, b: T, choice: Choice) -> [T; 4] {
    let mut assigned = a;
    assigned.conditional_assign(&b, choice);
    let (mut first, mut second) = (a, b);
    T::conditional_swap(&mut first, &mut second, choice);
    [
        T::conditional_select(&a, &b, choice),
        assigned,
        first,
        second,
    ]
}

fn negated<T: ConditionallyNegatable>(mut value: T, choice: Choice) -> T {
    value.conditional_negate(choice);
    value
}

// Two bits, and what `and`, `or` and `xor` make of them.
const BITS: [(u8, u8, u8, u8, u8); 4] = [
    (0, 0, 0, 0, 0),
    (0, 1, 0, 1, 1),
    (1, 0, 0, 1, 1),
    (1, 1, 1, 1, 0),
];

#[test]
fn choices_are_bits(rt: HostRuntime) {
    for (a, b, and, or, xor) in BITS {
        let (x, y) = (choice(a == 1), choice(b == 1));
        let (mut anded, mut ored, mut xored) = (x, x, x);
        anded &= y;
        ored |= y;
        xored ^= y;
        assert!(rt;
            [(x & y).unwrap_u8(), anded.unwrap_u8()] == [and, and],
            "{a} & {b}"
        );
        assert!(rt;
            [(x | y).unwrap_u8(), ored.unwrap_u8()] == [or, or],
            "{a} | {b}"
        );
        assert!(rt;
            [(x ^ y).unwrap_u8(), xored.unwrap_u8()] == [xor, xor],
            "{a} ^ {b}"
        );
    }
}

#[test]
fn choices_are_compared_and_selected(rt: HostRuntime) {
    for (a, b, _, _, xor) in BITS {
        let (x, y) = (choice(a == 1), choice(b == 1));
        assert!(rt; [x.unwrap_u8(), (!x).unwrap_u8()] == [a, 1 - a], "{a}");
        assert!(rt; bool::from(x) == (a == 1), "{a}");
        assert!(rt; equality(&x, &y) == [1 - xor, xor], "{a}, {b}");
        assert!(rt;
            selection(x, y, choice(true)).map(|c| c.unwrap_u8()) == [b, b, b, a],
            "{a}, {b}"
        );
    }
}

// Two numbers, whether the first is greater, and whether it is less.
const NUMBERS: [(u8, u8, u8, u8); 5] = [
    (13, 42, 0, 1),
    (42, 13, 1, 0),
    (13, 13, 0, 0),
    (0, 255, 0, 1),
    (128, 127, 1, 0),
];

#[test]
fn numbers_are_ordered(rt: HostRuntime) {
    for (a, b, gt, lt) in NUMBERS {
        assert!(rt; order(&a, &b) == [gt, lt], "{a}, {b}");
        assert!(rt; order(&u16::from(a), &u16::from(b)) == [gt, lt], "{a}, {b}");
        assert!(rt; order(&u32::from(a), &u32::from(b)) == [gt, lt], "{a}, {b}");
    }
}

#[test]
fn wide_numbers_and_orders_are_ordered(rt: HostRuntime) {
    for (a, b, gt, lt) in NUMBERS {
        let (wide_a, wide_b) = (u128::from(a) << 100, u128::from(b) << 100);
        assert!(rt; order(&u64::from(a), &u64::from(b)) == [gt, lt], "{a}, {b}");
        assert!(rt; order(&wide_a, &wide_b) == [gt, lt], "{a}, {b}");
        assert!(rt; order(&a.cmp(&b), &Ordering::Equal) == [gt, lt], "{a}, {b}");
    }
}

#[test]
fn numbers_are_equal(rt: HostRuntime) {
    for (a, b, gt, lt) in NUMBERS {
        let (eq, ne) = (1 - gt - lt, gt + lt);
        assert!(rt; equality(&a, &b) == [eq, ne], "{a}, {b}");
        assert!(rt;
            equality(&u16::from(a), &u16::from(b)) == [eq, ne],
            "{a}, {b}"
        );
        assert!(rt;
            equality(&u32::from(a), &u32::from(b)) == [eq, ne],
            "{a}, {b}"
        );
        assert!(rt;
            equality(&u64::from(a), &u64::from(b)) == [eq, ne],
            "{a}, {b}"
        );
    }
}

#[test]
fn wide_numbers_and_orders_are_equal(rt: HostRuntime) {
    for (a, b, gt, lt) in NUMBERS {
        let (eq, ne) = (1 - gt - lt, gt + lt);
        let (wide_a, wide_b) = (u128::from(a) << 100, u128::from(b) << 100);
        assert!(rt;
            equality(&usize::from(a), &usize::from(b)) == [eq, ne],
            "{a}, {b}"
        );
        assert!(rt; equality(&wide_a, &wide_b) == [eq, ne], "{a}, {b}");
        assert!(rt;
            equality(&a.cmp(&b), &Ordering::Equal) == [eq, ne],
            "{a}, {b}"
        );
    }
}

#[test]
fn signed_numbers_are_equal(rt: HostRuntime) {
    for (a, b, gt, lt) in NUMBERS {
        let (eq, ne) = (1 - gt - lt, gt + lt);
        assert!(rt;
            equality(&i16::from(a), &i16::from(b)) == [eq, ne],
            "{a}, {b}"
        );
        assert!(rt;
            equality(&i32::from(a), &i32::from(b)) == [eq, ne],
            "{a}, {b}"
        );
        assert!(rt;
            equality(&i64::from(a), &i64::from(b)) == [eq, ne],
            "{a}, {b}"
        );
        assert!(rt;
            equality(&i128::from(a), &i128::from(b)) == [eq, ne],
            "{a}, {b}"
        );
    }
}

#[test]
fn one_of_three_holds(rt: HostRuntime) {
    for (a, b, gt, lt) in NUMBERS {
        let (less, equal, greater) = laws::exactly_one_holds(&a, &b);
        let answers = [less.unwrap_u8(), equal.unwrap_u8(), greater.unwrap_u8()];
        assert!(rt; answers == [lt, 1 - gt - lt, gt], "{a}, {b}");
    }
    assert!(rt; equality(&-128i8, &127) == [0, 1]);
    assert!(rt; equality(&-1isize, &-1) == [1, 0]);
    laws::equality_agrees_with_order(&13u8, &42);
    laws::gt_steps(8, 13, 42);
}

#[test]
fn values_are_selected(rt: HostRuntime) {
    let (no, yes) = (choice(false), choice(true));
    assert!(rt; selection(13u8, 42, no) == [13, 13, 13, 42]);
    assert!(rt; selection(13u8, 42, yes) == [42, 42, 42, 13]);
    assert!(rt; selection(13u16, 4200, yes) == [4200, 4200, 4200, 13]);
    assert!(rt; selection(13u32, 1 << 31, yes) == [1 << 31, 1 << 31, 1 << 31, 13]);
}

#[test]
fn wide_values_are_selected(rt: HostRuntime) {
    let yes = choice(true);
    assert!(rt; selection(13u64, 1 << 63, yes) == [1 << 63, 1 << 63, 1 << 63, 13]);
    assert!(rt; selection(13u128, 1 << 127, yes) == [1 << 127, 1 << 127, 1 << 127, 13]);
    assert!(rt; selection(-128i8, 1, yes) == [1, 1, 1, -128]);
}

#[test]
fn signed_values_are_selected(rt: HostRuntime) {
    let (no, yes) = (choice(false), choice(true));
    assert!(rt; selection(-128i16, 1, yes) == [1, 1, 1, -128]);
    assert!(rt; selection(-128i32, 1, yes) == [1, 1, 1, -128]);
    assert!(rt; selection(-128i64, 1, yes) == [1, 1, 1, -128]);
    assert!(rt; selection(-128i128, 1, no) == [-128, -128, -128, 1]);
}

#[test]
fn orders_and_arrays_are_selected(rt: HostRuntime) {
    let (no, yes) = (choice(false), choice(true));
    let (less, greater) = (Ordering::Less, Ordering::Greater);
    assert!(rt; selection(less, greater, yes) == [greater, greater, greater, less]);
    assert!(rt; selection([1u8, 2], [3, 4], yes) == [[3, 4], [3, 4], [3, 4], [1, 2]]);
    assert!(rt; selection([1u8, 2], [3, 4], no) == [[1, 2], [1, 2], [1, 2], [3, 4]]);
    let (mut first, mut second) = ([1u8, 2], [3, 4]);
    laws::swap_exchanges_both(&mut first, &mut second, yes);
    assert!(rt; (first, second) == ([3, 4], [1, 2]));
}

#[test]
fn numbers_are_negated(rt: HostRuntime) {
    for (value, answer) in [(-128i8, -128), (127, -127), (-1, 1), (0, 0)] {
        assert!(rt; negated(value, choice(false)) == value, "{value}");
        assert!(rt; negated(value, choice(true)) == answer, "{value}");
    }
    assert!(rt; negated(5i16, choice(true)) == -5);
    assert!(rt; negated(5i32, choice(true)) == -5);
    assert!(rt; negated(5i64, choice(true)) == -5);
    assert!(rt; negated(5i128, choice(true)) == -5);
}

#[test]
fn options_show_no_hidden_value(rt: HostRuntime) {
    let none = CtOption::new(7u8, choice(false));
    let other_none = CtOption::new(9u8, choice(false));
    let some = CtOption::new(7u8, choice(true));
    assert_eq!(rt; equality(&none, &other_none), [1, 0]);
    assert_eq!(rt; equality(&some, &some), [1, 0]);
    assert_eq!(rt; equality(&none, &some), [0, 1]);
    assert_eq!(rt; equality(&some, &CtOption::new(9, choice(true))), [0, 1]);
    for (option, plain) in [(none, None), (some, Some(7))] {
        assert_eq!(rt; bool::from(option.is_some()), plain.is_some());
        assert_eq!(rt; bool::from(option.is_none()), plain.is_none());
        assert_eq!(rt; option.unwrap_or(5), plain.unwrap_or(5));
        assert_eq!(rt; option.unwrap_or_else(|| 5), plain.unwrap_or(5));
        assert_eq!(rt; option.into_option(), plain);
        assert_eq!(rt; Option::from(option), plain);
        assert_eq!(rt;
            option
                .or_else(|| CtOption::new(5, choice(true)))
                .into_option(),
            Some(plain.unwrap_or(5))
        );
        assert_eq!(rt;
            selection(other_none, option, choice(true)).map(|o| o.into_option()),
            [plain, plain, plain, None]
        );
    }
    assert_eq!(rt; CtOption::new(7u8, choice(true)).unwrap(), 7);
    assert_eq!(rt; CtOption::new(7u8, choice(true)).expect("a value"), 7);
}

/// Adds one to values below 255.
fn next(x: u8) -> u8 {
    if x < 255 { x + 1 } else { x }
}

/// What `map` makes of an option of 7, and what its closure was called with.
fn mapped(yes: bool) -> (Option<u8>, u8) {
    let seen = Cell::new(255);
    let mapped = CtOption::new(7u8, choice(yes)).map(|x: u8| {
        seen.set(x);
        next(x)
    });
    (mapped.into_option(), seen.get())
}

/// What `and_then` makes of an option of 7 under a closure that answers under this choice.
fn continued(yes: bool, answers: bool) -> Option<u8> {
    let answers = choice(answers);
    let continued = CtOption::new(7u8, choice(yes)).and_then(|x: u8| CtOption::new(
        next(x),
        answers,
    ));
    continued.into_option()
}

#[test]
fn closures_are_called_in_both_cases(rt: HostRuntime) {
    assert!(rt; mapped(false) == (None, 0));
    assert!(rt; mapped(true) == (Some(8), 7));
    assert!(rt; [continued(false, true), continued(true, false)] == [None, None]);
    assert!(rt; continued(true, true) == Some(8));
}

#[test]
fn comparisons_are_counted(rt: HostRuntime) {
    let rows: [(&[u8], &[u8], u8, u64); 4] = [
        (b"abcde", b"abcde", 1, 5),
        (b"abcde", b"xbcde", 0, 5),
        (b"abcd", b"abcde", 0, 0),
        (b"", b"", 1, 0),
    ];
    for (a, b, answer, comparisons) in rows {
        let mut counting = Counting::new();
        assert!(rt; eq_with(&mut counting, a, b).unwrap_u8() == answer, "{a:?}");
        assert!(rt; counting.count() == comparisons, "{a:?}");
        assert!(rt; ct_eq_slices(a, b).unwrap_u8() == answer, "{a:?}");
    }
    let mut counting = Counting::new();
    assert!(rt; counting.same(97, 97).unwrap_u8() == 1);
    assert!(rt; BlackBox::new(counting.count()).get() == 1);
}
