//! The grammar of the tour: what one may say to a house.
//!
//!     order   → command | command and order
//!     command → turn switch the thing | turn switch the thing in the room
//!     switch  → on | off
//!     thing   → lamp | heater
//!     room    → kitchen | hall

use book::TableRule;

/// Each symbol's spelling, at the symbol's number: ten words, then five names.
pub const SPELLING: [&str; 15] = [
    "turn", "on", "off", "the", "lamp", "heater", "in", "kitchen", "hall", "and", "order",
    "command", "switch", "thing", "room",
];

/// How many words there are.
pub const WORDS: u16 = 10;

/// How many names there are.
pub const NAMES: u16 = 5;

// Numbers, and no enum: the symbols of a book are the numbers in its table.

// the words
pub const TURN: u16 = 0;

pub const ON: u16 = 1;

pub const OFF: u16 = 2;

pub const THE: u16 = 3;

pub const LAMP: u16 = 4;

pub const HEATER: u16 = 5;

pub const IN: u16 = 6;

pub const KITCHEN: u16 = 7;

pub const HALL: u16 = 8;

pub const AND: u16 = 9;

// the names, of which the first is where each order starts
pub const ORDER: u16 = 10;

pub const COMMAND: u16 = 11;

pub const SWITCH: u16 = 12;

pub const THING: u16 = 13;

pub const ROOM: u16 = 14;

/// The rules, in the order in which they are added.
pub const RULES: [TableRule<'static>; 10] = [
    TableRule {
        left: ORDER,
        right: &[COMMAND],
    },
    TableRule {
        left: ORDER,
        right: &[COMMAND, AND, ORDER],
    },
    TableRule {
        left: COMMAND,
        right: &[TURN, SWITCH, THE, THING],
    },
    TableRule {
        left: COMMAND,
        right: &[TURN, SWITCH, THE, THING, IN, THE, ROOM],
    },
    TableRule {
        left: SWITCH,
        right: &[ON],
    },
    TableRule {
        left: SWITCH,
        right: &[OFF],
    },
    TableRule {
        left: THING,
        right: &[LAMP],
    },
    TableRule {
        left: THING,
        right: &[HEATER],
    },
    TableRule {
        left: ROOM,
        right: &[KITCHEN],
    },
    TableRule {
        left: ROOM,
        right: &[HALL],
    },
];

/// A symbol's spelling.
pub fn spelling(symbol: u16) -> &'static str {
    SPELLING.get(symbol as usize).copied().unwrap_or("?")
}
