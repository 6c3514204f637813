// The numbers of GTIDs.
ghost use Rattle.std.specs.Prelude.{◌≡◌, ◌<◌, ◌≤◌, ◌*◌, ◌^◌};
ghost use Rattle.std.specs.Option.{ForSome};
ghost use Rattle.group_rules.specs.Certifier.{number_after as number_after_last, opens_block as opens_block_at};

/// The number after an origin's last one, in its block, or the first one of the next block. With block size B, block q, from 0, has the
/// numbers qB+1 to (q+1)B (MySQL 8.0 Reference Manual, `group_replication_gtid_assignment_block_size`).
pub(crate) fn number_after(block: u32, blocks: u64, last: Option<u64>) -> u64
    requires least { 1 ≤ block }
    requires most { block ≤ 1000000 }
    requires few { blocks < 2 ^ 42 }
    requires of_blocks { ForSome last (λ n. n ≤ blocks * block) }
    ensures { result ≡ number_after_last block blocks last }
{
    let block = block as u64;
    match last {
        Some(number) if number % block != 0 => number + 1,
        _ => blocks * block + 1,
    }
}

/// Whether the number is the first one of its block.
pub(crate) fn opens_block(block: u32, number: u64) -> bool
    requires { 1 ≤ block }
    ensures { result ≡ opens_block_at block number }
{
    let block = block as u64;
    number % block == 1 % block
}
