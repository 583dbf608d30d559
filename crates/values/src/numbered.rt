ghost use Rattle.std.specs.Prelude.{◌≡◌, ◌↔◌, ℕ, IsTrue, MatchOption};
ghost use Rattle.values.specs.Numbered.{HasNumber, HasNumberAt, HasNumbers, IsGap};

/// What has a number of its sort.
pub(crate) trait Numbered {
    ghost number_of: { Self → ℕ };

    /// Whether it has this number.
    fn has_number(&self, number: u32) -> bool
        ensures { IsTrue result ↔ (number_of self.now ≡ number) };
}

/// The first place that has the number.
pub(crate) fn find<T: Numbered>(list: &[T], number: u32) -> Option<usize>
    ensures { MatchOption result (¬ HasNumber T.number_of list.now number) (HasNumberAt T.number_of list.now number) }
{
    for (place, item) in list.iter().enumerate() {
        if item.has_number(number) {
            return Some(place);
        }
    }
    None
}

/// The least number from 1 to `count` that none has.
pub(crate) fn first_gap<T: Numbered>(list: &[T], count: u32) -> Option<u32>
    ensures { MatchOption result (HasNumbers T.number_of count list.now) (IsGap T.number_of count list.now) }
{
    for below in 0..count {
        let number = below + 1;
        match find(list, number) {
            Some(_place) => {}
            None => return Some(number),
        }
    }
    None
}
