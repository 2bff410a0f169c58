// The two ends of the order of chain numbers: to the least or the greatest of some.
ghost use Rattle.std.specs.Prelude.{◌≡◌, Bool, true, false, ℕ, ◌+◌, ◌<◌};
ghost use Rattle.logic.specs.Lattice.{least_over, greatest_over};
ghost use Rattle.values.specs.Chain.{chain_lattice, highest};

use values::{bottom, greater, lesser, top};

pub trait End {
    // Of no number, of two, and of those below one that pass a test.
    ghost empty: { ℕ };

    ghost op: { ℕ → ℕ → ℕ };

    ghost over: { (ℕ → Bool) → (ℕ → ℕ) → ℕ → ℕ };

    fn none() -> u32
        ensures { result ≡ empty };

    fn of(a: u32, b: u32) -> u32
        ensures { result ≡ op a b };

    ghost over_none: { (test : ℕ → Bool) → (f : ℕ → ℕ) → over test f 0 ≡ empty };

    ghost over_more: { (test : ℕ → Bool) → (f : ℕ → ℕ) → (k : ℕ) → test k ≡ true → over test f (k + 1) ≡ op (over test f k) (f k) };

    ghost over_past: { (test : ℕ → Bool) → (f : ℕ → ℕ) → (k : ℕ) → test k ≡ false → over test f (k + 1) ≡ over test f k };

    ghost over_same: { (test : ℕ → Bool) → (f : ℕ → ℕ) → (g : ℕ → ℕ) → (n : ℕ) → ((k : ℕ) → k < n → f k ≡ g k) → over test f n ≡ over test g n };
}

pub struct Least;

pub struct Greatest;

impl End for Least {
    ghost use Rattle.lanes.specs.EndLaws.{least_none, least_more, least_past, least_same};

    ghost empty = { highest };

    ghost op = { λ a b. chain_lattice.meet a b };

    ghost over = { λ test f n. least_over chain_lattice test f n };

    ghost over_none = { least_none };

    ghost over_more = { least_more };

    ghost over_past = { least_past };

    ghost over_same = { least_same };

    fn none() -> u32 {
        top()
    }

    fn of(a: u32, b: u32) -> u32 {
        lesser(a, b)
    }
}

impl End for Greatest {
    ghost use Rattle.lanes.specs.EndLaws.{greatest_none, greatest_more, greatest_past, greatest_same};

    ghost empty = { 0 };

    ghost op = { λ a b. chain_lattice.join a b };

    ghost over = { λ test f n. greatest_over chain_lattice test f n };

    ghost over_none = { greatest_none };

    ghost over_more = { greatest_more };

    ghost over_past = { greatest_past };

    ghost over_same = { greatest_same };

    fn none() -> u32 {
        bottom()
    }

    fn of(a: u32, b: u32) -> u32 {
        greater(a, b)
    }
}
