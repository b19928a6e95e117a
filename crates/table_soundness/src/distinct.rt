ghost use Rattle.std.specs.Prelude.{◌≡◌, ◌≢◌, ◌↔◌, ◌<◌, ◌≤◌, ◌-◌, false, length, IsTrue, All, AllPairs, Contains};
ghost use Rattle.std.specs.List.Sorted.{IsPermutation};

use std::alloc::Global;

/// At most that many marks are made for each number: a byte each, they take no more memory than the numbers.
pub const MARKS_FOR_EACH: usize = 8;

/// The lowest and the highest of the numbers.
fn lowest_and_highest(numbers: &[u64]) -> (u64, u64)
    requires { 0 < length numbers.now }
    ensures low { Contains numbers.now result.0 }
    ensures high { Contains numbers.now result.1 }
    ensures within { All (λ n. (result.0 ≤ n) × (n ≤ result.1)) numbers.now }
{
    let mut low = numbers[0];
    let mut high = low;
    for number in numbers {
        low = low.min(*number);
        high = high.max(*number);
    }
    (low, high)
}

/// Whether no number stands there twice: each is marked at its distance from the low one.
fn are_marked_once(numbers: &[u64], low: u64, marks: &mut [bool]) -> bool
    requires blank { All (λ m. m ≡ false) marks.old }
    requires within { All (λ n. (low ≤ n) × (n - low < length marks.old)) numbers.now }
    ensures { IsTrue result ↔ AllPairs (λ m n. m ≢ n) numbers.now }
{
    for number in numbers {
        let mark = (*number - low) as usize;
        if marks[mark] {
            return false;
        }
        marks[mark] = true;
    }
    true
}

/// Whether each of the numbers is below the next one.
pub fn are_strictly_rising(numbers: &[u64]) -> bool
    ensures { IsTrue result ↔ AllPairs (λ m n. m < n) numbers.now }
{
    let mut i = 1;
    while i < numbers.len() {
        if numbers[i] <= numbers[i - 1] {
            return false;
        }
        i += 1;
    }
    true
}

/// Whether no number stands there twice. It may put them in another order.
/// Numbers that lie densely, as those of an array's facts do, are marked, in time linear in their count.
/// Others are sorted, and so are those for whose marks there is no memory.
pub fn are_distinct(alloc: Global, numbers: &mut [u64]) -> bool
    ensures permutation { IsPermutation numbers.old numbers.new }
    ensures distinct { IsTrue result ↔ AllPairs (λ m n. m ≢ n) numbers.old }
{
    if numbers.is_empty() {
        return true;
    }
    let (low, high) = lowest_and_highest(numbers);
    let most = numbers.len().saturating_mul(MARKS_FOR_EACH);
    if high - low < most as u64 {
        if let Ok(mut marks) = vec![in alloc; false; (high - low) as usize + 1] {
            return are_marked_once(numbers, low, &mut marks);
        }
    }
    numbers.sort_unstable();
    are_strictly_rising(numbers)
}
