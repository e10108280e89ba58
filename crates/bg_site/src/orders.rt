//! Orders: request bodies that ask for a new match.
ghost use Rattle.std.specs.Prelude.{IfSome};
ghost use Rattle.bg_requests.specs.Orders.{IsKeyOfOrder};

use bg_board::Player;
use bg_match::{Rules, Terms};
use bg_requests::is_key_of_order;
use bg_states::put_quoted;
use bg_system::{Name, NameFault, Names};
use bg_text::put_text;
use serde_json::{Map, Value};
use std::alloc::{AllocError, Global};

/// The answer to a body that is not an object.
const NO_OBJECT: &str = "the body is no JSON object like {\"length\":3}\n";

/// The words after a key that an order may not have.
const KNOWN_KEYS: &str = " is not known: a match has \"length\", \"rules\", \"x\" and \"o\"\n";

/// A match that a request orders.
#[derive(Clone, Copy)]
pub(crate) struct Ordered {
    pub(crate) terms: Terms,
    pub(crate) names: Names,
}

/// The result of reading an order.
#[derive(Drop)]
pub(crate) enum Order {
    Match(Ordered),
    /// A line that says why the body is no order.
    Refused(Vec<u8>),
}

/// The reason why an object orders no match.
#[derive(Clone, Copy)]
enum OrderFault {
    Length,
    Rules,
    /// The name of this player is not a string.
    NoText(Player),
    /// The name of this player is a string that is not allowed as a name.
    Name(Player, NameFault),
}

/// Returns the match that a body orders: `{"length":N,"rules":R,"x":NAME,"o":NAME}`. All members
/// but the length may be left out.
///
/// # Errors
/// `AllocError` if there is no memory for the reason of a refusal.
pub(crate) fn order_of(alloc: Global, body: &[u8]) -> Result<Order, AllocError> {
    let text = str::from_utf8(body).unwrap_or("");
    match Value::from_str(alloc, text) {
        Ok(value) => match value.as_object() {
            Some(members) => order_in(alloc, &value, members),
            None => no_object(alloc),
        },
        Err(_) => no_object(alloc),
    }
}

/// Returns the refusal of a body that is not an object.
fn no_object(alloc: Global) -> Result<Order, AllocError> {
    let mut why = Vec::new(alloc);
    put_text(&mut why, NO_OBJECT)?;
    Ok(Order::Refused(why))
}

/// Returns what an object with these members orders.
fn order_in(
    alloc: Global,
    value: &Value,
    members: &Map<String, Value>,
) -> Result<Order, AllocError> {
    let mut why = Vec::new(alloc);
    if let Some(key) = unknown_key(members) {
        put_quoted(&mut why, key)?;
        put_text(&mut why, KNOWN_KEYS)?;
        return Ok(Order::Refused(why));
    }
    match ordered_in(value) {
        Ok(ordered) => Ok(Order::Match(ordered)),
        Err(fault) => {
            put_fault(&mut why, fault)?;
            Ok(Order::Refused(why))
        }
    }
}

/// Returns the match that an object orders.
fn ordered_in(value: &Value) -> Result<Ordered, OrderFault> {
    let (x, o) = (name_in(value, Player::X)?, name_in(value, Player::O)?);
    Ok(Ordered {
        terms: terms_in(value)?,
        names: Names { x, o },
    })
}

/// Returns the first key, in the order of strings, that an order may not have.
fn unknown_key(members: &Map<String, Value>) -> Option<&str>
    ensures { IfSome result (λ key. IsKeyOfOrder key.now → ⊥) }
{
    for key in members.keys() {
        if !is_key_of_order(key.as_str()) {
            return Some(key.as_str());
        }
    }
    None
}

/// Returns the length and the rules of a match.
fn terms_in(value: &Value) -> Result<Terms, OrderFault> {
    let Some(length @ 1..=99) = number_in(value, "length") else {
        return Err(OrderFault::Length);
    };
    let rules = match (value.get("rules"), number_in(value, "rules")) {
        (None, _) | (_, Some(1)) => Rules::One,
        (_, Some(2)) => Rules::Two,
        _ => return Err(OrderFault::Rules),
    };
    Ok(Terms {
        length: length as u8,
        rules,
    })
}

/// Returns the number in a member of an object, if there is one.
fn number_in(value: &Value, member: &str) -> Option<u64> {
    value.get(member)?.as_u64()
}

/// Returns the key of a player's name.
fn key_of(player: Player) -> &'static str {
    match player {
        Player::X => "x",
        Player::O => "o",
    }
}

/// Returns the name of a player in an object, if there is one and it is not empty.
fn name_in(value: &Value, player: Player) -> Result<Option<Name>, OrderFault> {
    let Some(found) = value.get(key_of(player)) else {
        return Ok(None);
    };
    match found.as_str() {
        None => Err(OrderFault::NoText(player)),
        Some("") => Ok(None),
        Some(text) => match Name::new(text) {
            Ok(name) => Ok(Some(name)),
            Err(fault) => Err(OrderFault::Name(player, fault)),
        },
    }
}

/// Adds the reason why an object orders no match.
fn put_fault(line: &mut Vec<u8>, fault: OrderFault) -> Result<(), AllocError> {
    match fault {
        OrderFault::Length => put_text(line, "\"length\" is a whole number from 1 to 99\n"),
        OrderFault::Rules => put_text(line, "\"rules\" is 1 or 2\n"),
        OrderFault::NoText(player) => {
            put_quoted(line, key_of(player))?;
            put_text(line, " is a name between quotes\n")
        }
        OrderFault::Name(player, fault) => {
            put_quoted(line, key_of(player))?;
            put_text(line, words_of(fault))
        }
    }
}

/// Returns the reason why a name is refused.
fn words_of(fault: NameFault) -> &'static str {
    match fault {
        NameFault::Length => " is refused: a name has 1 to 64 bytes of UTF-8\n",
        NameFault::Character => {
            " is refused: a name has no control characters, and none that change the direction of a text\n"
        }
        NameFault::Blank => " is refused: a name neither begins nor ends with a blank\n",
    }
}
