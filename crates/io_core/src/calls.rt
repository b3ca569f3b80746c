ghost use Rattle.std.specs.Prelude.{◌≡◌, ◌+◌, ◌↔◌, IsTrue};
ghost use Rattle.io_core.specs.Calls.{counted, FailsNext};

// Counts one more call, and answers whether its number is one of those that fail. A number past 64
// bits is none of them.
pub fn count_call(calls: &mut u64, fails: &[u64]) -> bool
    ensures counted { calls.new ≡ counted calls.old }
    ensures fails { IsTrue result ↔ FailsNext fails.now calls.old }
    ensures room { IsTrue result → calls.new ≡ calls.old + 1 }
{
    match calls.checked_add(1) {
        Some(number) => {
            *calls = number;
            fails.contains(&number)
        }
        None => false,
    }
}
