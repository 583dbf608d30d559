// Random numbers: the generator that the C standard shows as an example of `rand`.
ghost use Rattle.std.specs.Prelude.{◌≡◌, ◌<◌, ◌^◌};
ghost use Rattle.workload.specs.Draws.{drawn, next_seed};

/// What a draw sets the generator's number to, where it was `seed`.
pub(crate) fn next_number(seed: u32) -> u32
    ensures next { result ≡ next_seed seed }
    ensures small { result < 2 ^ 31 }
{
    ((u64::from(seed) * 1_103_515_245 + 12_345) % 2_147_483_648) as u32
}

/// What the draw gives that set the generator's number to `seed`.
pub(crate) fn value(seed: u32) -> u32
    ensures value { result ≡ drawn seed }
    ensures small { result < 2 ^ 16 }
{
    seed / 65_536
}
