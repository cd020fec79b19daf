// Where a VC of a port lies in the arrays.
ghost use Rattle.std.specs.Prelude.{◌≡◌, ◌<◌};
ghost use Rattle.state.specs.Views.{channel_number};

use base::Config;

// "requester number i·V+v"
pub(crate) fn number(config: Config, i: usize, v: usize) -> usize
    requires { (i < 256) × (v < 4294967296) }
    ensures { result ≡ channel_number config i v }
{
    i * (config.vcs as usize) + v
}
