// The classes of every byte, as the sum of their bits. That the table agrees with the definitions is computed, for every byte and class,
// where the scan is proved.

pub const SPACE: u8 = 1;

pub const NAME: u8 = 2;

pub const TEXT: u8 = 4;

pub const DIGIT: u8 = 8;

// What may stand between two double quotes.
pub const DOUBLE: u8 = 16;

// What may stand between two single quotes.
pub const SINGLE: u8 = 32;

pub const NAME_START: u8 = 64;

// No class: `<`, `&`, and what is below the space and is no white space.
const O: u8 = 0;

// White space.
const S: u8 = SPACE + TEXT + DOUBLE + SINGLE;

// A double quote.
const D: u8 = TEXT + SINGLE;

// A single quote.
const A: u8 = TEXT + DOUBLE;

// What starts a name: letters, `_`, `:` and all from 128 on.
const L: u8 = NAME_START + NAME + TEXT + DOUBLE + SINGLE;

// Digits.
const N: u8 = DIGIT + NAME + TEXT + DOUBLE + SINGLE;

// `-` and `.`, which stand in a name but do not start one.
const P: u8 = NAME + TEXT + DOUBLE + SINGLE;

// All other text.
const T: u8 = TEXT + DOUBLE + SINGLE;

#[rattlefmt::skip]
pub const CLASSES: [u8; 256] = [
    O, O, O, O, O, O, O, O, O, S, S, O, O, S, O, O,
    O, O, O, O, O, O, O, O, O, O, O, O, O, O, O, O,
    S, T, D, T, T, T, O, A, T, T, T, T, T, P, P, T,
    N, N, N, N, N, N, N, N, N, N, L, T, O, T, T, T,
    T, L, L, L, L, L, L, L, L, L, L, L, L, L, L, L,
    L, L, L, L, L, L, L, L, L, L, L, T, T, T, T, L,
    T, L, L, L, L, L, L, L, L, L, L, L, L, L, L, L,
    L, L, L, L, L, L, L, L, L, L, L, T, T, T, T, T,
    L, L, L, L, L, L, L, L, L, L, L, L, L, L, L, L,
    L, L, L, L, L, L, L, L, L, L, L, L, L, L, L, L,
    L, L, L, L, L, L, L, L, L, L, L, L, L, L, L, L,
    L, L, L, L, L, L, L, L, L, L, L, L, L, L, L, L,
    L, L, L, L, L, L, L, L, L, L, L, L, L, L, L, L,
    L, L, L, L, L, L, L, L, L, L, L, L, L, L, L, L,
    L, L, L, L, L, L, L, L, L, L, L, L, L, L, L, L,
    L, L, L, L, L, L, L, L, L, L, L, L, L, L, L, L,
];
