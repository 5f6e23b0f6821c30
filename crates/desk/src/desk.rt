// The desk: the edits read so far, and the printing of replies.
use crate::line::{Line, parse_line};
use crate::query::{Query, Scale};
use crate::reply::Answer;
use crate::runs::{Batch, Noted, run_edits, search_after};
use guide::blank::Blank;
use measure::hardest::Hardest;
use measure::total::Total;
use measure::total_steps::TotalSteps;
use replay::call::Reply;
use std::alloc::Global;
use std::io;
use text::named::Named;

#[derive(Drop)]
pub struct Desk {
    edits: Vec<Noted>,
    // how many of them have been answered
    answered: usize,
}

impl Desk {
    pub(crate) fn new(heap: Global) -> Desk {
        Desk {
            edits: Vec::new(heap),
            answered: 0,
        }
    }

    // Prints the replies to the edits that have not been answered yet.
    fn answer<W: Named>(&mut self, rt: &HostRuntime, replies: &[Reply<W>]) -> io::Result<()> {
        let answers = self.edits.iter().zip(replies.iter());
        for (noted, reply) in answers.skip(self.answered) {
            let number = noted.line;
            let answer = Answer {
                reply: *reply,
                line: &[],
            };
            println!(rt; "{number}: {answer}")?;
        }
        self.answered = replies.len();
        Ok(())
    }

    // Runs the edits, and prints the replies that are left.
    pub(crate) fn finish(&mut self, rt: &HostRuntime) -> io::Result<()> {
        let edited: Batch<Total, Blank> = run_edits(rt.alloc(), &self.edits)?;
        let replies = edited.into_replies();
        self.answer(rt, &replies)
    }

    // Runs the edits and a search after them, and prints the replies.
    fn search<W: Named>(
        &mut self,
        rt: &HostRuntime,
        number: usize,
        query: &Query,
    ) -> io::Result<()> {
        match search_after::<W>(rt.alloc(), &self.edits, query) {
            Ok(outcome) => {
                self.answer(rt, &outcome.replies)?;
                let answer = outcome.answer();
                println!(rt; "{number}: {answer}")
            }
            Err(failure) => {
                let refusal = failure.told()?;
                self.finish(rt)?;
                println!(rt; "{number}: {refusal}")
            }
        }
    }

    // A measure is a type, so the call for each stands here.
    fn search_by_scale(
        &mut self,
        rt: &HostRuntime,
        number: usize,
        query: &Query,
    ) -> io::Result<()> {
        match query.scale {
            Scale::Total => self.search::<Total>(rt, number, query),
            Scale::Hardest => self.search::<Hardest>(rt, number, query),
            Scale::TotalSteps => self.search::<TotalSteps>(rt, number, query),
        }
    }

    // Takes a line: notes an edit, answers a search, tells what is wrong with a bad line.
    pub(crate) fn take(&mut self, rt: &HostRuntime, number: usize, line: &[u8]) -> io::Result<()> {
        match parse_line(rt.alloc(), line) {
            Ok(Line::Skipped) => Ok(()),
            Ok(Line::Edit(edit)) => {
                self.edits.push(Noted { edit, line: number })?;
                Ok(())
            }
            Ok(Line::Search(query)) => self.search_by_scale(rt, number, &query),
            Err(failure) => {
                let fault = failure.told()?;
                self.finish(rt)?;
                println!(rt; "{number}: bad line: {fault}")
            }
        }
    }
}
