//! What the tests compare with. A test calls these in place of `assert_eq!` and `assert!`: each of
//! those is proved where it stands, with all that it may print, and takes the prover a second; a
//! call takes it some hundredths.
//!
//! Each crate with tests that compare has its own copy, since no library may have the bound
//! `Abort`, by which a check ends the test. Change all copies alike.
use std::fmt::{Debug, Display};
use std::process::Abort;

/// Fails the test unless the two are equal.
pub fn equal<R: Abort, D: Display + Drop, T: PartialEq + Debug>(
    rt: &R,
    what: D,
    found: &T,
    wanted: &T,
) {
    assert_eq!(*rt; *found, *wanted, "{what}");
}

/// Fails the test unless this holds.
pub fn holds<R: Abort, D: Display + Drop>(rt: &R, what: D, found: bool) {
    assert!(*rt; found, "{what}");
}

/// `assert_eq!`.
macro_rules! check_eq {
    ($rt:expr; $found:expr, $wanted:expr) => {
        $crate::checks::equal(&$rt, stringify!($found), &$found, &$wanted)
    };
    ($rt:expr; $found:expr, $wanted:expr, $($what:tt)+) => {
        $crate::checks::equal(&$rt, format_args!($($what)+), &$found, &$wanted)
    };
}

/// `assert!`.
macro_rules! check {
    ($rt:expr; $found:expr) => {
        $crate::checks::holds(&$rt, stringify!($found), $found)
    };
    ($rt:expr; $found:expr, $($what:tt)+) => {
        $crate::checks::holds(&$rt, format_args!($($what)+), $found)
    };
}

pub(crate) use check;
pub(crate) use check_eq;
