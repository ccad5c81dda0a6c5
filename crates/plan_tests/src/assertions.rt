//! The assertions of the tests. Each stands once, in a function, since an assertion in a test is proved there again.
use std::fmt::Display;
use test_support::runtime::Runtime;

/// Ends a test if something does not hold.
pub(crate) fn holds(rt: &impl Runtime, is_so: bool) {
    assert!(*rt; is_so);
}

/// Ends a test at a row for which something does not hold.
pub(crate) fn holds_at<D: Display + Drop>(rt: &impl Runtime, row: D, is_so: bool) {
    assert!(*rt; is_so, "row {row}");
}
