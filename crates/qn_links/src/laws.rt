//! The law that the meaning of a settings text has one spelling.
ghost use Rattle.std.specs.Prelude.{◌≡◌, ◌↔◌, List, Option};
ghost use Rattle.std.specs.declared.net.ip_addr.IpAddr.{IpAddr};
ghost use Rattle.qn_model.specs.declared.configuration.Settings.{Settings};
ghost use Rattle.qn_links.specs.declared.arbiter.ArbiterPlace.{ArbiterPlace};
ghost use Rattle.qn_links.specs.Meaning.{IsSaid, meaning};

/// Law: the bytes are equal exactly where the settings, the addresses of the nodes and the arbiter of the device are.
pub fn law_one_meaning()
    ensures { (one other : Settings) → (links others : List (Option IpAddr))
        → (arbiter another : Option ArbiterPlace)
        → IsSaid one links arbiter → IsSaid other others another
        → (meaning one links arbiter ≡ meaning other others another)
        ↔ ((one ≡ other) × (links ≡ others) × (arbiter ≡ another)) }
{}
