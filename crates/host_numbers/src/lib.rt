// The sizes and the indices that the numbers of a C host stand for, and the number that a call returns to it.
#![tactic(auto)]

ghost use Rattle.std.specs.Prelude.{◌≡◌, ◌^◌, ◌<◌, MatchResult};
ghost use Rattle.host_numbers.specs.Numbers.{size_of, stride_of, index_of};

// A number as a size, 0 where it is negative.
pub fn size(number: i32) -> usize
    ensures { (result ≡ size_of number) × (result < 2 ^ 31) }
{
    usize::try_from(number).unwrap_or(0)
}

// The larger of maxmod and 1.
pub fn stride(maxmod: i32) -> usize
    ensures { (result ≡ stride_of maxmod) × (result < 2 ^ 31) }
{
    size(maxmod).max(1)
}

// An index as a size, none where it is not 0 to n - 1.
pub fn index_below(index: i32, n: usize) -> Option<usize>
    ensures { result ≡ index_of index n }
{
    usize::try_from(index).ok().filter(|k| *k < n)
}

// What a call returns to its host: 0, or the number of its refusal.
pub fn result_number<T: Copy, E: Into<u32>>(outcome: Result<T, E>) -> u32
    ensures { MatchResult outcome (λ _. result ≡ 0) (λ refusal. E.converts refusal result) }
{
    match outcome {
        Ok(_) => 0,
        Err(refusal) => refusal.into(),
    }
}
