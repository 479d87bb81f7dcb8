//! The settings of both ends.

ghost use Rattle.std.specs.Prelude.{◌≡◌};

use crate::end_config::EndConfig;

/// The settings of both ends.
#[derive(Debug, Drop)]
pub struct Config {
    /// The number of links, 1 to 16.
    pub links: u8,
    /// The settings of end a.
    pub a: EndConfig,
    /// The settings of end b.
    pub b: EndConfig,
    pub ghost a_links: { a.links ≡ links },
    pub ghost b_links: { b.links ≡ links },
}
