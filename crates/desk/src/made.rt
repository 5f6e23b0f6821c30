// Guides made from maps.
use crate::query::{Map, Query};
use abstraction::make::{GuideColumns, make};
use guide::map::MapGuide;
use measure::Measure;
use memory::columns::{FACTS, RULES, WORK, blank_entry};
use memory::failure::Failure;
use sheet::passed::Passed;
use sheet::passed::pass::pass;
use sheet::refusal::Refusal;
use sheet::slot::Slot;
use std::alloc::Global;

const QUEUE: usize = 4 * RULES + 1;

// A map, and the columns made from it: a guide is lent each by itself.
#[derive(Drop)]
pub struct Made<'a, W> {
    map: &'a [u16],
    floors: Vec<W>,
    rests: Vec<W>,
}

impl<'a, W: Measure> Made<'a, W> {
    // Passes a sheet and makes the guide of a map, for the facts and the target of a search.
    pub(crate) fn new(
        heap: Global,
        slots: &[Slot],
        query: &Query,
        map: &'a Map,
    ) -> Result<Made<'a, W>, Failure<Refusal>> {
        let mut sheet = Passed::empty();
        pass(slots, query.facts, &mut sheet)?;
        let mut second = vec![in heap; None; RULES]?;
        let mut floors = vec![in heap; W::nothing(); FACTS]?;
        let mut rests = vec![in heap; W::nothing(); FACTS]?;
        let mut reasons = vec![in heap; 0; FACTS]?;
        let mut queue = vec![in heap; blank_entry(); QUEUE]?;
        let mut work = vec![in heap; 0; WORK]?;
        let mut columns = GuideColumns {
            second: &mut second,
            floors: &mut floors,
            rests: &mut rests,
            reasons: &mut reasons,
            queue: &mut queue,
            work: &mut work,
        };
        make(&sheet, query.target, &map.entries, map.groups, &mut columns)?;
        let map = map.entries.as_slice();
        Ok(Made { map, floors, rests })
    }

    pub(crate) fn guide(&self) -> MapGuide<'_, W> {
        MapGuide {
            map: self.map,
            floors: self.floors.as_slice(),
            rests: self.rests.as_slice(),
        }
    }
}
