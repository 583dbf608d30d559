ghost use Rattle.std.specs.Prelude.{◌≡◌, option_copied};
ghost use Rattle.std.specs.Ordering.{is_lt};
ghost use Rattle.range_set.specs.Order.{before, first_fault, precedes};
ghost use Rattle.range_set.specs.Mapping.{is_turned};
ghost use Rattle.range_set.specs.Ranking.{before-order};

use crate::range_error::RangeError;
use crate::range_ref::RangeRef;
use crate::range_value::RangeValue;
use stable_order::Ranked;
use std::cmp::Ordering;

/// A value with the range that it stands at, from the place `from` to the place `to`, in characters.
#[derive(Drop)]
pub struct Ranged<T> {
    pub from: u32,
    pub to: u32,
    pub value: T,
}

impl<T: RangeValue> Ranked for Ranged<T> {
    ghost before = { before T.rules };

    fn compare(&self, other: &Ranged<T>) -> Ordering {
        self.from
            .cmp(&other.from)
            .then(self.value.start_side().cmp(&other.value.start_side()))
    }

    ghost is_order = { before-order T.rules };
}

impl<T: RangeValue> Ranged<T> {
    /// Whether it belongs before another: by its start, then by its start side.
    pub(crate) fn is_before(&self, other: &Ranged<T>) -> bool
        ensures { result ≡ before T.rules self.now other.now }
    {
        self.from < other.from
            || (self.from == other.from && self.value.start_side() < other.value.start_side())
    }

    /// Whether it belongs before the range that stands before it, if there is one.
    pub(crate) fn precedes(&self, last: Option<&Ranged<T>>) -> bool
        ensures { result ≡ precedes T.rules self.now (option_copied last.entry) }
    {
        match last {
            Some(last) => self.is_before(last),
            None => false,
        }
    }

    /// Whether it is empty with an end side that is less than its start side.
    pub(crate) fn is_turned(&self) -> bool
        ensures { result ≡ is_turned T.rules self.now }
    {
        let range = RangeRef {
            from: self.from,
            to: self.to,
            value: &self.value,
        };
        range.is_turned()
    }
}

/// The first fault of a list of ranges.
pub(crate) fn fault_in<T: RangeValue>(ranges: &[Ranged<T>]) -> Option<RangeError>
    ensures value { result ≡ first_fault T.rules ranges.now }
{
    look_through(ranges).fault
}

/// What a look through a list of ranges finds.
#[derive(Drop)]
pub(crate) struct Findings {
    /// The first fault.
    pub(crate) fault: Option<RangeError>,
    /// The length, in characters, of the longest range before the first fault, or of all where there is none; 0 where there are no
    /// ranges. No contract speaks of this: it only decides where chunks are cut.
    pub(crate) longest: u32,
}

/// Looks through a list of ranges up to its first fault.
pub(crate) fn look_through<T: RangeValue>(ranges: &[Ranged<T>]) -> Findings
    ensures fault { result.fault ≡ first_fault T.rules ranges.now }
{
    let mut longest = 0;
    let mut last = None;
    for (index, range) in ranges.iter().enumerate() {
        if range.from > range.to {
            let fault = Some(RangeError::Reversed { index });
            return Findings { fault, longest };
        }
        if range.precedes(last) {
            let fault = Some(RangeError::NotSorted { index });
            return Findings { fault, longest };
        }
        longest = longest.max(range.to - range.from);
        last = Some(range);
    }
    Findings {
        fault: None,
        longest,
    }
}
