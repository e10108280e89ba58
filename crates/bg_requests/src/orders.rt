//! The keys of an order: of the request that makes a match.
ghost use Rattle.std.specs.Prelude.{◌↔◌, IsTrue};
ghost use Rattle.bg_requests.specs.Orders.{IsKeyOfOrder};

/// Returns whether an order of a match may have this key: `length`, `rules`, `x` or `o`
/// (docs/SERVING.md, "Scripts"). Others are refused, since a name under a misspelt key would be
/// lost.
pub fn is_key_of_order(key: &str) -> bool
    ensures { IsTrue result ↔ IsKeyOfOrder key.now }
{
    key == "length" || key == "rules" || key == "x" || key == "o"
}
