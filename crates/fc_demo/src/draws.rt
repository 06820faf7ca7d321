// The generator of a demo's draws.
ghost use Rattle.std.specs.Prelude.{◌≡◌, ◌<◌, ◌^◌};
ghost use Rattle.fc_runs.specs.Demo.{draw, next_seed};

/// The state of the generator after another. States have 31 bits.
pub fn next_seed(x: u32) -> u32
    ensures value { result ≡ next_seed x }
    ensures bound { result < 2 ^ 31 }
{
    let next = u64::from(x) * 1_103_515_245 + 12_345;
    (next % (1 << 31)) as u32
}

/// What a state of the generator draws: its high half.
pub fn draw(x: u32) -> u32
    requires { x < 2 ^ 31 }
    ensures value { result ≡ draw x }
    ensures bound { result < 2 ^ 15 }
{
    x / 65_536
}
