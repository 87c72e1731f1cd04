// Commands of a script.
use super::digits::{digit_octets, number_octets};
use super::fault::LineFault;
use super::words::octet;
use std::alloc::Global;
use std::str::from_utf8;

#[derive(Drop)]
pub enum Command {
    Own(Vec<u8>),
    Roam(Vec<u8>, u8),
    Roams(Vec<u8>, u8),
    Rows(u64),
    Read(Vec<u8>),
}

// The octets that words stand for, one each.
fn word_octets(heap: Global, words: &[&str]) -> Result<Vec<u8>, LineFault> {
    words
        .iter()
        .map(|word| octet(word).ok_or(LineFault::NotUnderstood))
        .try_collect(heap)
}

// A decimal number as an octet. One too large for an octet is out of every range, as 255 is.
fn small(word: &str) -> Result<u8, LineFault> {
    let number = word.parse::<u64>()?;
    Ok(u8::try_from(number).unwrap_or(u8::MAX))
}

// What the words of a line ask; nothing if there are none, or if they are a comment.
fn parse_words(heap: Global, words: &[&str]) -> Result<Option<Command>, LineFault> {
    let command = match words {
        [] => return Ok(None),
        [first, ..] if first.starts_with('#') => return Ok(None),
        ["own", number] => Command::Own(number_octets(heap, number)?),
        ["roam", digits, class] => Command::Roam(digit_octets(heap, digits)?, small(class)?),
        ["roams", node, bar] => {
            // The bar first: a line that is not understood for it asks for no more memory.
            let bar = small(bar)?;
            Command::Roams(number_octets(heap, node)?, bar)
        }
        ["store", "rows", rows] => Command::Rows(rows.parse::<u64>()?),
        ["read", octets @ ..] => Command::Read(word_octets(heap, octets)?),
        _ => return Err(LineFault::NotUnderstood),
    };
    Ok(Some(command))
}

// What a line asks. A line that is no text is not understood, unless it is a comment.
pub fn parse(heap: Global, line: &[u8]) -> Result<Option<Command>, LineFault> {
    if let [b'#', ..] = line {
        return Ok(None);
    }
    let text = from_utf8(line).map_err(|_| LineFault::NotUnderstood)?;
    let words: Vec<&str> = text.split_ascii_whitespace().collect(heap)?;
    parse_words(heap, words.as_slice())
}
