// What a line of the input says.
use crate::edit::{Edit, parse_enter, parse_reprice, parse_strike};
use crate::fault::{Fault, Field, Kind};
use crate::pieces::split_words;
use crate::query::{Query, parse_query};
use crate::words::Words;
use memory::failure::Failure;
use std::alloc::Global;

#[derive(Drop)]
pub enum Line {
    // an empty line or a remark
    Skipped,
    Edit(Edit),
    Search(Query),
}

// The call that words say; the first word tells which.
fn parse_words(heap: Global, words: &mut Words) -> Result<Line, Failure<Fault>> {
    let index = words.index;
    match words.word(Field::Call)? {
        b"enter" => Ok(Line::Edit(parse_enter(heap, words)?)),
        b"reprice" => Ok(Line::Edit(parse_reprice(words)?)),
        b"strike" => Ok(Line::Edit(parse_strike(words)?)),
        b"search" => Ok(Line::Search(parse_query(heap, words)?)),
        _ => {
            let kind = Kind::Unknown(Field::Call);
            Err(Failure::Told(Fault { index, kind }))
        }
    }
}

// Reads a line.
pub(crate) fn parse_line(heap: Global, line: &[u8]) -> Result<Line, Failure<Fault>> {
    if let [b'#', ..] = line {
        return Ok(Line::Skipped);
    }
    let words = split_words(heap, line)?;
    if words.is_empty() {
        return Ok(Line::Skipped);
    }
    let words = &mut Words {
        list: &words,
        index: 0,
    };
    parse_words(heap, words)
}
