//! Tables and stories as text, a case or a step a line: what is done, ` = `, and what it gives, in words that spaces
//! part.

/// What stands before a mark, and what stands behind it.
pub fn cut<'a>(line: &'a str, mark: &str) -> (&'a str, &'a str) {
    match line.split_once(mark) {
        Some(parts) => parts,
        None => (line, ""),
    }
}

/// The first seven parts between these marks, empty where there are fewer.
pub fn parts(text: &str, mark: char) -> [&str; 7] {
    let mut parts = [""; 7];
    let mut at = 0;
    for part in text.split(mark) {
        if at < 7 {
            parts[at] = part;
            at += 1;
        }
    }
    parts
}

/// The first seven words.
pub fn words(text: &str) -> [&str; 7] {
    parts(text, ' ')
}

/// The number that a word spells, else 0.
pub fn number(word: &str) -> u64 {
    match word.parse::<u64>() {
        Ok(number) => number,
        Err(_) => 0,
    }
}

/// The same of 32 bits.
pub fn small(word: &str) -> u32 {
    match word.parse::<u32>() {
        Ok(number) => number,
        Err(_) => 0,
    }
}
