//! What an end wants of its bundles.

ghost use Rattle.std.specs.Prelude.{◌≡◌};
ghost use Rattle.ppp_conf.specs.EndConfig.{end_seen};
ghost use Rattle.ppp_station.specs.BapTerms.{terms_of};

use ppp_conf::EndConfig;

/// What an end wants of its bundles, by its settings.
#[derive(Clone, Copy, Debug, PartialEq, Eq)]
pub struct BapTerms {
    /// How many links at most, 1 to 16.
    pub most: u8,
    /// How many links at least, 1 to 16.
    pub least: u8,
    /// Whether the peer may call.
    pub calls: bool,
    /// Whether the peer may ask to be called.
    pub callbacks: bool,
    /// The speed of a link that is asked for, in kbit/s.
    pub speed: u16,
}

impl BapTerms {
    /// Those of an end's settings.
    pub(crate) fn of(config: &EndConfig) -> BapTerms
        ensures { result ≡ terms_of (end_seen config.now) }
    {
        BapTerms {
            most: config.most,
            least: config.least,
            calls: config.calls,
            callbacks: config.callbacks,
            speed: config.speed,
        }
    }
}
