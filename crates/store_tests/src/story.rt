//! Stories: a call a line, for a tenant and with up to two numbers, and behind ` = ` the numbers that it gives, as
//! `put 7 1 = 0`. Numbers that aren't there are 0.

/// A line of a story.
#[derive(Clone, Copy)]
pub struct Step<'a> {
    pub call: &'a str,
    pub tenant: u32,
    pub number: u32,
    pub other: u32,
    pub wanted: Numbers,
}

/// What a call gives.
pub type Numbers = [u32; 6];

pub fn one(number: u32) -> Numbers {
    [number, 0, 0, 0, 0, 0]
}

pub fn two(first: u32, second: u32) -> Numbers {
    [first, second, 0, 0, 0, 0]
}

/// The number, or the greatest where it is too great for a story.
pub fn small(number: u64) -> u32 {
    u32::try_from(number).unwrap_or(u32::MAX)
}

/// A row's number, 0 for none.
pub fn row_number(row: Option<u64>) -> u32 {
    match row {
        Some(number) => small(number),
        None => 0,
    }
}

/// What stands before a mark, and what stands behind it.
fn cut<'a>(line: &'a str, mark: &str) -> (&'a str, &'a str) {
    match line.split_once(mark) {
        Some(parts) => parts,
        None => (line, ""),
    }
}

fn number_of(word: &str) -> u32 {
    match word.parse::<u32>() {
        Ok(number) => number,
        Err(_) => 0,
    }
}

/// The numbers that spaces part.
fn numbers(text: &str) -> Numbers {
    let mut numbers = [0; 6];
    let mut at = 0;
    for word in text.split(' ') {
        if at < 6 {
            numbers[at] = number_of(word);
            at += 1;
        }
    }
    numbers
}

pub fn step_of(line: &str) -> Step<'_> {
    let (asked, wanted) = cut(line, " = ");
    let (call, rest) = cut(asked, " ");
    let [tenant, number, other, _, _, _] = numbers(rest);
    Step {
        call,
        tenant: if tenant == 8 { 8 } else { 7 },
        number,
        other,
        wanted: numbers(wanted),
    }
}
