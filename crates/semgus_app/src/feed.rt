ghost use Rattle.std.specs.Prelude.{◌+◌, ◌++◌, ◌<◌, ◌^◌, ℕ, List, OnOk, length};

use std::alloc::AllocError;

/// What takes the bytes of a file in pieces.
pub trait Feed {
    // These bytes were fed, in whatever pieces.
    ghost was_fed: { Self → List ℕ → Type 0 };

    /// Takes the next piece. After want of memory it can only be dropped.
    fn feed(&mut self, piece: &[u8]) -> Result<(), AllocError>
        requires { (bytes : List ℕ) × was_fed self.old bytes × (length bytes + length piece.now < 2 ^ 32) }
        ensures { OnOk result ((bytes : List ℕ) → was_fed self.old bytes → was_fed self.new (bytes ++ piece.now)) };
}
