// Listed entries.
ghost use Rattle.std.specs.Prelude.{◌≡◌, map};
ghost use Rattle.network.specs.Plmn.{among};
ghost use Rattle.config.specs.Settings.{plmn_in};

use entry::field::Preferred;
use network::Plmn;

// Whether a PLMN stands among listed ones.
pub fn has_preferred(list: &[Preferred], p: Plmn) -> bool
    ensures { result ≡ among p (map plmn_in list.now) }
{
    list.iter().any(|listed| p == listed.plmn)
}
