// What stands in a table as a row of a fixed number of numbers.
ghost use Rattle.std.specs.Prelude.{◌≡◌, ℕ, ◌≤◌, List, length, Option};
ghost use Rattle.rows.specs.Rows.{Laws};

pub trait Row: Copy {
    const WIDTH: usize;

    ghost WIDTH: { ℕ };

    ghost made: { List ℕ → Self };

    ghost cells: { Self → List ℕ };

    // For each number the limit that it has to stay below, if any.
    ghost limits: { List (Option ℕ) };

    // What each `impl` has to prove.
    ghost laws: { Laws WIDTH made cells };

    ghost limited: { length limits ≡ WIDTH };

    fn read(source: &[u64]) -> Self
        requires { WIDTH ≤ length source.now }
        ensures { result ≡ made source.now };

    fn write(self, target: &mut [u64])
        requires { length target.old ≡ WIDTH }
        ensures { target.new ≡ cells self };

    fn limits() -> &'static [Option<u64>]
        ensures { result.now ≡ limits };
}
