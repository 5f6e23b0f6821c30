// Searches as they are asked for.
use crate::fault::{Fault, Field, Kind};
use crate::words::Words;
use memory::failure::Failure;
use std::alloc::Global;

// The measure of a search.
#[derive(Clone, Copy)]
pub enum Scale {
    Total,
    Hardest,
    TotalSteps,
}

// A number of groups, and the group of each fact.
#[derive(Drop)]
pub struct Map {
    pub groups: u16,
    pub entries: Vec<u16>,
}

#[derive(Drop)]
pub enum Guidance {
    Blank,
    Map(Map),
    Heavier(Map, Map),
}

#[derive(Drop)]
pub struct Query {
    pub scale: Scale,
    pub facts: u16,
    pub target: u16,
    pub guidance: Guidance,
}

fn parse_scale(words: &mut Words) -> Result<Scale, Fault> {
    let index = words.index;
    match words.word(Field::Measure)? {
        b"total" => Ok(Scale::Total),
        b"hardest" => Ok(Scale::Hardest),
        b"total-steps" => Ok(Scale::TotalSteps),
        _ => {
            let kind = Kind::Unknown(Field::Measure);
            Err(Fault { index, kind })
        }
    }
}

// The index of the first word after the next that begins a guide, or the end.
fn next_map(words: &Words) -> usize {
    let indexed = words.list.iter().enumerate();
    let mut later = indexed.skip(words.index).skip(1);
    let found = later.find(|(_, word)| **word == b"map".as_slice());
    found.map_or(words.list.len(), |(index, _)| index)
}

// map GROUPS G0 G1 …, up to an end
fn parse_map(heap: Global, words: &mut Words, end: usize) -> Result<Map, Failure<Fault>> {
    let index = words.index;
    if words.word(Field::Guide)? != b"map".as_slice() {
        let kind = Kind::Unknown(Field::Guide);
        return Err(Failure::Told(Fault { index, kind }));
    }
    let groups = words.short(Field::GroupCount)?;
    let entries = words.shorts(heap, end, Field::Group)?;
    Ok(Map { groups, entries })
}

// The guide that the words left tell.
fn parse_guidance(heap: Global, words: &mut Words) -> Result<Guidance, Failure<Fault>> {
    if words.is_at_end() {
        return Ok(Guidance::Blank);
    }
    let second = next_map(words);
    let map = parse_map(heap, words, second)?;
    if words.is_at_end() {
        return Ok(Guidance::Map(map));
    }
    let other = parse_map(heap, words, words.list.len())?;
    Ok(Guidance::Heavier(map, other))
}

// MEASURE FACTS TARGET, and the guide
pub(crate) fn parse_query(heap: Global, words: &mut Words) -> Result<Query, Failure<Fault>> {
    Ok(Query {
        scale: parse_scale(words)?,
        facts: words.short(Field::FactCount)?,
        target: words.short(Field::Target)?,
        guidance: parse_guidance(heap, words)?,
    })
}
