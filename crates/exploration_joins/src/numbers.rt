//! Looks at the numbers of parts.

ghost use Rattle.std.specs.Prelude.{◌≡◌, ◌≤◌, ℕ, IsPermutation, MatchOption};
ghost use Rattle.std.specs.List.Sorted.{IsNonDecreasing};
ghost use Rattle.exploration_joins.specs.Numbers.{IsFirstMissing, IsFirstTwice, times_in};

/// Sorts numbers.
pub(crate) fn sort(numbers: &mut Vec<u64>)
    ensures same { IsPermutation numbers.old.items numbers.new.items }
    ensures rise { IsNonDecreasing numbers.new.items }
{
    numbers.sort_unstable();
}

/// Returns the least number that is there twice. The numbers are sorted.
pub(crate) fn first_twice(numbers: &[u64]) -> Option<u64>
    requires { IsNonDecreasing numbers.now }
    ensures { MatchOption result ((number : ℕ) → times_in numbers.now number ≤ 1)
        (IsFirstTwice numbers.now) }
{
    for place in 1..numbers.len() {
        if numbers[place] == numbers[place - 1] {
            return Some(numbers[place]);
        }
    }
    None
}

/// Returns the least number that isn't among these. They are sorted.
pub(crate) fn first_missing(numbers: &[u64]) -> u64
    requires { IsNonDecreasing numbers.now }
    ensures { IsFirstMissing numbers.now result }
{
    let mut next = 0;
    for number in numbers {
        if *number > next {
            return next;
        }
        if *number == next {
            next += 1;
        }
    }
    next
}
