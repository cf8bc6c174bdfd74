// The kinds of claims, as a record has them: numbers, since a lent room may hold any, and a blank record, of no kind, is all 0. They count from 1.
pub const IS: u8 = 1;

pub const SUB: u8 = IS + 1;

pub const LINK: u8 = SUB + 1;
