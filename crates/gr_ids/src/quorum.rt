// The least number that is more than half.
ghost use Rattle.std.specs.Prelude.{◌≡◌, ◌+◌, ◌/◌};

/// The least number of `n` members that is more than half of them: two such sets share a member.
pub fn majority(n: usize) -> usize
    ensures { result ≡ n / 2 + 1 }
{
    n / 2 + 1
}
