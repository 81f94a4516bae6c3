ghost use Rattle.std.specs.Prelude.{◌≡◌, ℕ, List, Ok};
ghost use Rattle.net_core.specs.declared.network.Network.{Network as AnyNetwork};
ghost use Rattle.source_tree.specs.declared.cert.Cert.{Cert as AnyCert};
ghost use Rattle.cert_text.specs.Reading.{reading};
ghost use Rattle.cert_text.specs.StandsFor.{HasText, IsWrittenOf, StandsFor};

// Each of these does nothing: its contract is a law over the definitions.

/// A text stands for the pair that is read from it, and what it stands for is read from it. So no text stands for two pairs.
pub fn reads_what_is_written()
    ensures forth { (bytes : List ℕ) (network : AnyNetwork) (cert : AnyCert) →
        reading bytes ≡ Ok (network, cert) → StandsFor bytes network cert }
    ensures back { (bytes : List ℕ) (network : AnyNetwork) (cert : AnyCert) →
        StandsFor bytes network cert → reading bytes ≡ Ok (network, cert) }
{}

/// What is written of a pair that has a text stands for it.
pub fn what_is_written_stands()
    ensures { (text : List ℕ) (network : AnyNetwork) (cert : AnyCert) →
        IsWrittenOf text network cert → HasText network cert → StandsFor text network cert }
{}
