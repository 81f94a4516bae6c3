ghost use Rattle.std.specs.Prelude.{◌≡◌, ◌↔◌, None};
ghost use Rattle.sanlp.specs.declared.nest.Nest.{Nest};
ghost use Rattle.source_tree.specs.declared.cert.Cert.{Cert};
ghost use Rattle.net_core.specs.declared.network.Network.{Network};
ghost use Rattle.net_core.specs.Sound.{IsSound};
ghost use Rattle.net_checker.specs.Fits.{Fits, first};

// Each of these does nothing: its contract is a law over the definitions.

/// Nothing is wrong first exactly where the network and the certificate fit the nest.
pub fn accepts_what_fits()
    ensures { (n : Nest) (network : Network) (cert : Cert)
        → (first n network cert ≡ None) ↔ Fits n network cert }
{}

/// A network that fits the nest with some certificate is sound for it.
pub fn is_sound()
    ensures { (n : Nest) (network : Network) (cert : Cert) → Fits n network cert
        → IsSound n network }
{}
