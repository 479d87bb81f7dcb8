//! What the crate's constants are.

ghost use Rattle.std.specs.Prelude.{◌≡◌};

use crate::wires::{MOST_LINK, MOST_NAME, MOST_PORT};

/// Does nothing. Its clauses say each limit's number.
pub fn numbers()
    ensures ports { MOST_PORT ≡ 32 }
    ensures links { MOST_LINK ≡ 16 }
    ensures name { MOST_NAME ≡ 67 }
{
    let _limits = (MOST_PORT, MOST_LINK, MOST_NAME);
}
