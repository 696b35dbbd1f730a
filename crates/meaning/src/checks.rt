//! Checks in a row.
ghost use Rattle.std.specs.Prelude.{◌≡◌, ℕ, ◌<◌, Result};
ghost use Rattle.fault.specs.declared.fault.Fault as refusal;
ghost use Rattle.meaning.specs.Checks.{through};

use fault::Fault;

/// Makes so many checks in a row, each of which hands a state on; the first that refuses is the answer.
pub fn through<S, F: Fn(usize, S) -> Result<S, Fault>>(
    count: usize,
    start: S,
    check: F,
) -> Result<S, Fault>
    requires { (i : ℕ) (s : S) → i < count → F.pre check i s }
    ensures { (f : ℕ → S → Result S refusal.Fault) → ((i : ℕ) (s : S) (r : Result S refusal.Fault) → i < count → F.post check i s r → r ≡ f i s) → result ≡ through f count 0 start }
{
    let mut state = start;
    for i in 0..count {
        state = check(i, state)?;
    }
    Ok(state)
}
