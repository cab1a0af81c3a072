// The managed calls for a C host that change no factor: lengths, adoption, ready and the solves. The state is handed over as its dimension and its capacity.
// Each returns its refusal's number, 0 for success. C has no Result and no Option: the number and the out-parameters stand for them.
#![tactic(auto)]

ghost use Rattle.std.specs.Prelude.{◌≡◌, length};
ghost use Rattle.std.specs.Float.{binary64};
ghost use Rattle.numbers.specs.NumberForm.{ieee};
ghost use Rattle.machine.specs.Calls as calls;
ghost use Rattle.storage.specs.Lengths.{required_lengths};
ghost use Rattle.managed.specs.Refusals.{storage_tests};
ghost use Rattle.managed.specs.StorageAnswers.{ready_answer};
ghost use Rattle.answers.specs.Numbers.{index_after};
ghost use Rattle.managed_c.specs.Returned.{SolveReturned, LengthsReturned, ReadyReturned};

use answers::named_index;
use api::LuMod;
use host_numbers::result_number;
use refusals::Refusal;

// The lengths of L and U that a capacity needs.
#[unsafe(no_mangle)]
pub extern "C" fn lumod_storage_lengths(capacity: usize, l: &mut usize, u: &mut usize) -> u32
    ensures { LengthsReturned (required_lengths capacity) l.old u.old l.new u.new result }
{
    let required = LuMod::storage_lengths(capacity);
    if let Ok(lengths) = required {
        *l = lengths.l;
        *u = lengths.u;
    }
    result_number(required.map_err(Refusal::from))
}

// Whether storage can be adopted at a dimension and a capacity.
#[unsafe(no_mangle)]
pub extern "C" fn lumod_from_storage(n: usize, c: usize, l: &[f64], u: &[f64]) -> u32
    ensures { result ≡ calls.refusal_number (storage_tests n c (length l.now) (length u.now)) }
{
    let adoption = LuMod::from_storage(n, c, l, u);
    result_number(adoption)
}

// Solves in place.
#[unsafe(no_mangle)]
pub extern "C" fn lumod_solve(
    n: usize,
    c: usize,
    l: &mut [f64],
    u: &[f64],
    rhs: &mut [f64],
    index: &mut usize,
) -> u32
    ensures { SolveReturned binary64 (calls.solve rhs.old) n c l.old u.now l.new rhs.new
        (λ a. index.new ≡ index_after a index.old) result }
{
    let state = LuMod {
        n,
        capacity: c,
        counter: 0,
    };
    let result = state.solve_in_place(l, u, rhs);
    *index = named_index(result.answer, *index);
    result_number(result.answer)
}

// Solves with the transpose in place.
#[unsafe(no_mangle)]
pub extern "C" fn lumod_solve_transpose(
    n: usize,
    c: usize,
    l: &mut [f64],
    u: &[f64],
    rhs: &mut [f64],
    index: &mut usize,
) -> u32
    ensures { SolveReturned binary64 (calls.solve_transpose rhs.old) n c l.old u.now l.new rhs.new
        (λ a. index.new ≡ index_after a index.old) result }
{
    let state = LuMod {
        n,
        capacity: c,
        counter: 0,
    };
    let result = state.solve_transpose_in_place(l, u, rhs);
    *index = named_index(result.answer, *index);
    result_number(result.answer)
}

// Whether the factors are ready: no diagonal is refused and every active entry is finite.
#[unsafe(no_mangle)]
pub extern "C" fn lumod_ready(n: usize, c: usize, l: &[f64], u: &[f64], ready: &mut u8) -> u32
    ensures { ReadyReturned (ready_answer (ieee binary64) n c l.now u.now) ready.old ready.new result }
{
    let state = LuMod {
        n,
        capacity: c,
        counter: 0,
    };
    let answer = state.ready(l, u);
    if let Ok(is_ready) = answer {
        *ready = u8::from(is_ready);
    }
    result_number(answer)
}
