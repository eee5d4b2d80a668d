// Stretches by their numbers, at ticks that no timestamp has. The service that prints a list refuses such ticks, so it does not show how they are judged.
ghost use Rattle.std.specs.Prelude.{◌<◌};

use crate::{put, put_answer};
use lent::Row;

// Numbers below 0, and the least and the greatest, as 64 bits in two's complement.
const MINUS_ONE: u64 = 18_446_744_073_709_551_615;

const MINUS_TWO: u64 = 18_446_744_073_709_551_614;

const LEAST: u64 = 9_223_372_036_854_775_808;

const GREATEST: u64 = 9_223_372_036_854_775_807;

// Prints whether four numbers are a stretch.
fn ask(low_kind: u64, low_tick: u64, high_kind: u64, high_tick: u64) {
    let row = Row {
        low_kind,
        low_tick,
        high_kind,
        high_tick,
    };
    put_answer(lent::is_stretch(row));
}

// Prints whether a place lies between a stretch with this high and one with this low.
fn ask_between(high_kind: u64, high_tick: u64, low_kind: u64, low_tick: u64)
    requires { (high_kind < 3) × (low_kind < 3) }
{
    let row = Row {
        low_kind: 0,
        low_tick: 0,
        high_kind,
        high_tick,
    };
    let next = Row {
        low_kind,
        low_tick,
        high_kind: 0,
        high_tick: 0,
    };
    put_answer(lent::are_parted(row, next));
}

// [-2, -1] and [-1, -2]; (-2, -1) and (-1, -1]; [-1, 0] and [0, -1]; all numbers, and the same crossed; an unbounded end with a tick.
fn stretches() {
    ask(2, MINUS_TWO, 2, MINUS_ONE);
    ask(2, MINUS_ONE, 2, MINUS_TWO);
    ask(1, MINUS_TWO, 1, MINUS_ONE);
    ask(1, MINUS_ONE, 2, MINUS_ONE);
    ask(2, MINUS_ONE, 2, 0);
    ask(2, 0, 2, MINUS_ONE);
    ask(2, LEAST, 2, GREATEST);
    ask(2, GREATEST, 2, LEAST);
    ask(0, LEAST, 2, GREATEST);
}

// Between -2] and [-1; -1] and (-1; -1) and (-1; -1] and [0; 0] and [-1; the least and the greatest, and these the other way round.
fn places_between() {
    ask_between(2, MINUS_TWO, 2, MINUS_ONE);
    ask_between(2, MINUS_ONE, 1, MINUS_ONE);
    ask_between(1, MINUS_ONE, 1, MINUS_ONE);
    ask_between(2, MINUS_ONE, 2, 0);
    ask_between(2, 0, 2, MINUS_ONE);
    ask_between(2, LEAST, 2, GREATEST);
    ask_between(2, GREATEST, 2, LEAST);
}

// Prints a line for each question.
pub(crate) fn show() {
    put(b"stretch ");
    stretches();
    put(b"\nbetween ");
    places_between();
    put(b"\n");
}
