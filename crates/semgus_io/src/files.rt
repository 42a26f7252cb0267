ghost use Rattle.std.specs.Prelude.{◌≡◌, ℕ, ◌+◌, ◌-◌, ◌^◌, ◌<◌, ◌≤◌, min, Bool, List, [], Option, Some, None, length, take, IfOk, OnOk, OnErr, IsErr, IsOk, IsTrue};
ghost use Rattle.std.specs.Option.{ForSome};
ghost use Rattle.semgus_io.specs.Counts.{Rises};
ghost use Rattle.semgus_io.specs.Reads.{Takes};

/// A call of the outside failed.
#[derive(Clone, Copy, Debug, PartialEq, Eq)]
pub struct Failed;

/// Files by name, of which one at a time is begun and read to its end.
///
/// A count of faults rose in a call where it is greater after the call than before, or stands at 2^64 - 1 after it.
pub trait Files {
    // The bytes of the file of a name, or that there is none. The outer option is `None` where it isn't told.
    ghost held: { Self → List ℕ → Option (Option (List ℕ)) };

    // The bytes of the begun file that weren't taken, where they are told.
    ghost left: { Self → Option (List ℕ) };

    // `begin` fails exactly where no file of the name is held, and `take` never fails.
    ghost steady: { Self → Bool };

    ghost open_faults: { Self → ℕ };

    ghost read_faults: { Self → ℕ };

    // The number of the bytes that all takes gave, up to 2^64 - 1.
    ghost taken: { Self → ℕ };

    /// Begins the file of a name. A name without a file fails. After a failure no file is begun.
    fn begin(&mut self, name: &str) -> Result<(), Failed>
        ensures opened { OnOk result (ForSome (held self.old name.now) (λ file. left self.new ≡ file)) }
        ensures absent { held self.old name.now ≡ Some None → IsErr result }
        ensures closed { OnErr result (ForSome (left self.new) (λ bytes. bytes ≡ [])) }

        ensures risen { OnErr result (Rises (open_faults self.old) (open_faults self.new)) }
        ensures counted { OnOk result (open_faults self.new ≡ open_faults self.old) }
        ensures kept { open_faults self.old ≤ open_faults self.new }
        ensures read_faults { read_faults self.new ≡ read_faults self.old }
        ensures taken { taken self.new ≡ taken self.old }

        ensures held { held self.new ≡ held self.old }
        ensures steady { steady self.new ≡ steady self.old }
        ensures steady_fails { IsTrue (steady self.old) → IsErr result → held self.old name.now ≡ Some None };

    /// Takes the next bytes of the begun file into the buffer, and answers how many. `Ok(0)` is the end.
    fn take(&mut self, buf: &mut [u8]) -> Result<usize, Failed>
        requires { 0 < length buf.old }
        ensures within { IfOk result (λ n. n ≤ length buf.old) }
        ensures told { IfOk result (λ n. ForSome (left self.old) (λ bytes. Takes bytes (left self.new) n (take n buf.new))) }
        ensures none_taken { OnErr result (left self.new ≡ left self.old) }

        ensures risen { OnErr result (Rises (read_faults self.old) (read_faults self.new)) }
        ensures counted { OnOk result (read_faults self.new ≡ read_faults self.old) }
        ensures kept { read_faults self.old ≤ read_faults self.new }
        ensures open_faults { open_faults self.new ≡ open_faults self.old }
        ensures taken { IfOk result (λ n. taken self.new ≡ min (taken self.old + n) (2 ^ 64 - 1)) }
        ensures taken_stays { OnErr result (taken self.new ≡ taken self.old) }

        ensures held { held self.new ≡ held self.old }
        ensures steady { steady self.new ≡ steady self.old }
        ensures steady_reads { IsTrue (steady self.old) → IsOk result };
}
